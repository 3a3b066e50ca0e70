//! Names of objects.

/// The name of an object: the node that made it, its class, and a number of its own. An object keeps
/// its name, and no two objects share one. Node 255 names the objects that are there before
/// the first step. The class is below 2^24, so that a name fits 64 bits.
#[derive(Clone, Copy, Debug, PartialEq, Eq, PartialOrd, Ord, Hash)]
pub struct Name {
    pub node: u8,
    pub class: u32,
    pub index: u32,
}
