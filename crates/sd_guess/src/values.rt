use crate::access::number_of;
use crate::state::State;
use crate::stop::Stop;
use crate::terms::Shape;
use sd_term::{Bank, Head, Op, TermId};
use std::collections::HashMap;

/// Values of atoms that the search found no conflict in.
#[derive(Drop)]
pub struct Values {
    /// By the number of a term of the query.
    own: Vec<Option<bool>>,
    /// Of equalities (`false`) and orders (`true`) of two terms of the query.
    added: HashMap<(bool, u32, u32), bool>,
}

impl Values {
    /// The value of an atom of a bank that begins with the query's terms. Where none was found, an equality is true
    /// and all else false.
    pub fn of(&self, terms: &Bank, atom: u32) -> bool {
        if let Some(value) = self.own.get(atom as usize) {
            return value.unwrap_or(false);
        }
        if atom >= terms.len() {
            return false;
        }
        let node = terms.node(TermId::new(atom));
        let is_order = match &node.head {
            Head::Op(Op::Eq) => false,
            _ => true,
        };
        match (node.parts.get(0), node.parts.get(1)) {
            (Some(a), Some(b)) => {
                let found = self.added.get(&(is_order, a.number(), b.number()));
                found.copied().unwrap_or(!is_order)
            }
            _ => false,
        }
    }
}

impl State {
    /// The values of the atoms as they are now.
    pub fn current_values(&self) -> Result<Values, Stop> {
        let mut values = Values {
            own: Vec::new(self.alloc),
            added: HashMap::new(self.alloc),
        };
        for number in 0..number_of(self.terms.terms.len())? {
            let value = self.value(number)?;
            if number < self.terms.own {
                values.own.push(value)?;
                continue;
            }
            let key = match self.terms.shape(number)? {
                Shape::Eq(a, b) => (false, a, b),
                Shape::Le(a, b) => (true, a, b),
                _ => continue,
            };
            if let Some(value) = value {
                values.added.insert(key, value)?;
            }
        }
        Ok(values)
    }
}
