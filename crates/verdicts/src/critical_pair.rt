// A critical pair as the code holds it.

// The rule's number from 0, the classes of x0 to x3 (255 for those that the rule does not have), and the class.
#[derive(Clone, Copy, PartialEq, Eq)]
pub struct CriticalPair {
    pub rule: u8,
    pub x0: u8,
    pub x1: u8,
    pub x2: u8,
    pub x3: u8,
    pub class: u8,
}
