use sd_kernel::Step;

/// How a rule stands at a term, or at all terms.
#[derive(Drop)]
pub enum Judged {
    Holds,
    /// A step whose new fact contradicts an earlier one.
    Broken(Step),
    /// A step that is asked for: a new term, or a split of one without a value.
    Missing(Step),
}
