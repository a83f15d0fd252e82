ghost use Rattle.std.specs.Prelude.{◌≡◌, ◌++◌, ◌≤◌, OnOk, OnErr, take, length};
ghost use Rattle.std.specs.Option.{option_map};
ghost use Rattle.redn_outside.specs.Seen.{SinkSeen, KeepsCount, PutFailed};

/// A piece was not written whole.
#[derive(Clone, Copy, Debug, PartialEq, Eq)]
pub struct Failed;

/// Where pieces of bytes are written, one after another.
///
/// A sink counts its faults. The count is a `u64` that never falls and stays at its greatest value.
pub trait Sink {
    // What was written where it tells, its count, and whether no call of it ever fails.
    ghost seen: { Self → SinkSeen };

    /// Appends a piece. After `Failed` only a prefix of it was appended.
    fn put(&mut self, bytes: &[u8]) -> Result<(), Failed>
        // Whatever it answers.
        ensures stays { KeepsCount (seen self.old) (seen self.new) }

        // Each answer and its cause.
        ensures ok { OnOk result ((seen self.new).told
            ≡ option_map (λ before. before ++ bytes.now) (seen self.old).told) }
        ensures prefix { OnErr result ((n : _) × (n ≤ length bytes.now) × ((seen self.new).told
            ≡ option_map (λ before. before ++ take n bytes.now) (seen self.old).told)) }
        ensures failed { OnErr result (PutFailed (seen self.old) (seen self.new)) };
}
