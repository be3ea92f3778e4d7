// A parked UART: its form, and why bytes are no such form. What a form is stands in specs/ and, for people, in docs/FORM.md.
#![tactic(auto)]

// Why bytes are not loaded; the numbers are 10 and 11 in this order.
#[derive(Clone, Copy)]
pub enum NotLoaded {
    // The count is not seven, the pairs do not lie as they must, or the bytes do not end with the last part.
    Layout,
    // They are in any other way not the form of a state within the limits.
    NoState,
}
