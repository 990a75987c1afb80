// What a container holds: pods, or pods that each stand after a key and flags.
#[derive(Clone, Copy, Debug, PartialEq, Eq)]
pub enum Holds {
    Fields,
    Properties,
}
