// What a batch did: the values that it took, the pages cut (0 or 1), and the number of the refusal
// that a due page met and waits for, or 0.
#[derive(Clone, Copy, PartialEq, Eq, Debug)]
pub struct BatchDone {
    pub values: usize,
    pub pages_cut: usize,
    // a number, since a batch answers its waiting refusal by number
    pub waiting: u8,
}
