// The word of a vertex.

ghost use Rattle.std.specs.Prelude.{◌≡◌};
ghost use Rattle.spd_words.specs.Words.{VertexFits, vertex_with, pack_vertex, vertex_of};

/// The word of a vertex of the dag.
pub struct VertexWord {}

impl VertexWord {
    /// The word of a vertex: its state (0 none, 1 waiting, 2 ready, 3 started), its side (0 left, 1
    /// right), its pair and the finish that it signals (below 2^18), and the node at which it
    /// increments (below 2^20).
    pub fn pack(state: u32, side: u32, pair: u32, finish: u32, inc: u32) -> u64
        requires { VertexFits (vertex_with state side pair finish inc) }
        ensures word { result ≡ pack_vertex (vertex_with state side pair finish inc) }
        ensures read { vertex_of result ≡ vertex_with state side pair finish inc }
    {
        u64::from(state)
            + 4 * u64::from(side)
            + 8 * u64::from(pair)
            + 2_097_152 * u64::from(finish)
            + 549_755_813_888 * u64::from(inc)
    }

    /// Its state.
    pub fn state(word: u64) -> u32
        ensures { result ≡ (vertex_of word).state }
    {
        (word % 4) as u32
    }

    /// Its side.
    pub fn side(word: u64) -> u32
        ensures { result ≡ (vertex_of word).side }
    {
        (word / 4 % 2) as u32
    }

    /// Its pair.
    pub fn pair(word: u64) -> u32
        ensures { result ≡ (vertex_of word).pair }
    {
        (word / 8 % 262_144) as u32
    }

    /// The finish that it signals.
    pub fn finish(word: u64) -> u32
        ensures { result ≡ (vertex_of word).finish }
    {
        (word / 2_097_152 % 262_144) as u32
    }

    /// The node at which it increments.
    pub fn inc(word: u64) -> u32
        ensures { result ≡ (vertex_of word).inc }
    {
        (word / 549_755_813_888 % 1_048_576) as u32
    }
}
