/// How tightly an expression binds, from the loosest on. `Right` is what stands to the right of `==>`.
#[derive(Clone, Copy, Debug, PartialEq, Eq)]
pub enum Level {
    Whole,
    Implication,
    Right,
    Explied,
    Junction,
    Conjunction,
    Disjunction,
    Relation,
    Sum,
    Product,
    Prefix,
    Postfix,
    Atom,
}
