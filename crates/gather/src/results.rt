// A result as the bytes of a row have it: a prepare byte, with its retry stamp. It is not a check's result, since the rows that are asked may have any bytes.
#[derive(Clone, Copy, Debug, PartialEq, Eq)]
pub struct HeldResult {
    pub code: u8,
    pub retry: u64,
}
