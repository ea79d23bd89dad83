// The word of a SNZI node.

ghost use Rattle.std.specs.Prelude.{◌≡◌};
ghost use Rattle.spd_words.specs.Words.{pack_node, node_of};

/// The word of a SNZI node: twice its count, and its version (Ellen, Lev, Luchangco, Moir, PODC 2007).
/// Twice, since a node may stand at a half.
pub struct NodeWord {}

impl NodeWord {
    /// The word with twice this count and this version.
    pub fn pack(twice: u32, version: u32) -> u64
        ensures word { result ≡ pack_node (record { twice = twice; version = version }) }
        ensures read { node_of result ≡ record { twice = twice; version = version } }
    {
        u64::from(twice) + 4_294_967_296 * u64::from(version)
    }

    /// Twice the count.
    pub fn twice(word: u64) -> u32
        ensures { result ≡ (node_of word).twice }
    {
        (word % 4_294_967_296) as u32
    }

    /// The version.
    pub fn version(word: u64) -> u32
        ensures { result ≡ (node_of word).version }
    {
        (word / 4_294_967_296) as u32
    }
}
