ghost use Rattle.std.specs.Prelude.{◌≡◌, ℕ, List};
ghost use Rattle.redn_words.specs.Words.{number};
ghost use Rattle.redn_words.specs.Requests.{decoded};
ghost use Rattle.redn_wqe.specs.Fields.{place_of, width_of, field_of};

/// A field of a request.
#[derive(Clone, Copy, Debug, PartialEq, Eq)]
pub enum Field {
    Op,
    Id,
    Lkey,
    Rkey,
    Local,
    Remote,
    Length,
    First,
    Second,
    Flags,
}

/// The byte of a slot at which a field stands.
pub fn field_at(f: Field) -> u64
    ensures place { result ≡ place_of f }
    ensures reads { (slot : List ℕ) → field_of f (decoded slot) ≡ number (width_of f) slot result }
{
    match f {
        Field::Op => 0,
        Field::Id => 2,
        Field::Lkey => 8,
        Field::Rkey => 12,
        Field::Local => 16,
        Field::Remote => 24,
        Field::Length => 32,
        Field::First => 40,
        Field::Second => 48,
        Field::Flags => 56,
    }
}
