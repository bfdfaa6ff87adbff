// One reply as it is lent: any numbers may stand in it. Its fields are laid out as C does it, so that a C caller can lend a list of them; the small ones come first, which leaves one byte between them unused.
#[repr(C)]
#[derive(Clone, Copy)]
pub struct Reply {
    pub boxnumber: u8,
    pub result: u8,
    pub finality: u8,
    pub view: u32,
    pub retry: u64,
}
