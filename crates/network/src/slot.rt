/// What lies in a filled slot: which node sent it, and how many bytes it has. The bytes themselves lie in the caller's memory.
#[derive(Clone, Copy, PartialEq, Eq, Debug)]
pub struct Filled {
    pub(crate) sender: usize,
    pub(crate) length: usize,
}
