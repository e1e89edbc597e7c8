// What a batch needs: the number of its values, and of their plain bytes.
#[derive(Clone, Copy, PartialEq, Eq, Debug)]
pub struct Intake {
    pub values: usize,
    pub plain: usize,
}
