//! What the types of numbers say of programs. Calls of these do nothing; they are for contracts.

ghost use Rattle.std.specs.Prelude.{◌<◌, ◌^◌};
ghost use Rattle.std.specs.List.{All};
ghost use Rattle.redn_proof_window.specs.Scripts.{IsBytes};
ghost use Rattle.redn_proof_layout.specs.ImageLaws.{HasNumbers};

use redn_kernel::{ChainInit, Program, TableInit};

fn are_words(values: &[u64])
    ensures { All (λ v. v < 2 ^ 64) values.now }
{
    for value in values {
        let _value = *value;
    }
}

fn are_bytes(bytes: &[u8])
    ensures { IsBytes bytes.now }
{
    for byte in bytes {
        let _byte = *byte;
    }
}

fn chains_have_words(chains: &[ChainInit])
    ensures { All (λ c. All (λ v. v < 2 ^ 64) c.vars) chains.now }
{
    for chain in chains {
        are_words(chain.vars.as_slice());
    }
}

fn tables_have_bytes(tables: &[TableInit])
    ensures { All (λ t. IsBytes t.bytes) tables.now }
{
    for table in tables {
        are_bytes(table.bytes.as_slice());
    }
}

/// The first values of a program's variables are words, and its tables hold bytes.
pub fn has_numbers(p: &Program)
    ensures { HasNumbers p.now }
{
    chains_have_words(p.chains.as_slice());
    tables_have_bytes(p.tables.as_slice());
}
