//! How many procedures a text has.
ghost use Rattle.std.specs.Prelude.{◌≡◌};
ghost use Rattle.sd_parse.specs.Counts as spec;

use sd_ast::Decl;

#[tactic(auto, unfolding(crate::specs::Counts::is_procedure))]
fn is_procedure(decl: &Decl) -> bool
    ensures { result ≡ spec.is_procedure decl.now }
{
    match decl {
        Decl::Procedure(_) | Decl::Implementation(_) => true,
        _ => false,
    }
}

/// How many procedures and implementations the declarations have together.
pub fn procedures(decls: &[Decl]) -> usize
    ensures { result ≡ spec.procedures decls.now }
{
    let mut found = 0;
    'decls: for decl in decls {
        if is_procedure(decl) {
            found += 1;
        }
    }
    found
}
