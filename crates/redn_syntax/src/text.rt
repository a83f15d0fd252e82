ghost use Rattle.std.specs.Prelude.{◌≡◌, IfOk};
ghost use Rattle.std.specs.Str.{IsAscii};

use redn_words::Memory;
use std::alloc::Global;
use std::marker::Model;

/// The text of a name, which contracts see as its bytes.
#[derive(Debug, Drop)]
pub struct Text {
    inner: String,
}

impl Model for Text {
    ghost use Rattle.std.specs.Prelude.{List, ℕ, string_bytes};

    ghost Value = { List ℕ };

    ghost view = { λ t. string_bytes t.inner };
}

impl Text {
    /// The text of these bytes.
    pub fn from_ascii(alloc: Global, bytes: &[u8]) -> Result<Text, Memory>
        requires { IsAscii bytes.now }
        ensures { IfOk result (λ text. text ≡ bytes.now) }
    {
        match str::from_utf8(bytes) {
            Ok(text) => {
                let inner = String::from_str(alloc, text).map_err(|_| Memory)?;
                Ok(Text { inner })
            }
            Err(_) => unreachable!(),
        }
    }

    pub fn as_str(&self) -> &str
        ensures { result.now ≡ self.now }
    {
        self.inner.as_str()
    }

    pub fn as_bytes(&self) -> &[u8]
        ensures { result.now ≡ self.now }
    {
        self.inner.as_bytes()
    }
}
