ghost use Rattle.std.specs.Prelude.{◌≡◌, ◌↔◌, ◌⊎◌, [], Some, false, IfOk, OnOk, IsErr};
ghost use Rattle.redn_outside.specs.Counts.{NeverFalls};
ghost use Rattle.redn_outside.specs.SinkState.{empty_sink, NextFails, Fits, after_put, after_fault, half};

use crate::sink::{Failed, Sink};
use redn_words::Memory;
use std::alloc::Global;
use std::marker::Model;

/// A sink in memory, with room for so many bytes, whose calls fail where they are told to.
#[derive(Debug, Drop)]
pub struct MemSink {
    written: Vec<u8>,
    room: u64,
    fail: Vec<u64>,
    calls: u64,
    faults: u64,
}

impl Model for MemSink {
    ghost use Rattle.redn_outside.specs.SinkState.{SinkState};

    ghost Value = { SinkState };

    ghost use Rattle.redn_outside.specs.SinkView.{sink_view, HasRoom};

    ghost view = { sink_view };

    ghost invariant = { HasRoom };
}

impl MemSink {
    /// Takes its room first. `fail` lists the numbers of the puts that fail, counted from 0. Numbers
    /// end at the greatest `u64`.
    pub fn new(alloc: Global, fail: Vec<u64>, room: u64) -> Result<MemSink, Memory>
        ensures { IfOk result (λ sink. sink ≡ empty_sink fail.items room) }
    {
        let written = Vec::with_capacity(alloc, room as usize).map_err(|_| Memory)?;
        Ok(MemSink {
            written,
            room,
            fail,
            calls: 0,
            faults: 0,
        })
    }

    /// What was written, from the first byte on.
    pub fn written(&self) -> &[u8]
        ensures { result.now ≡ self.now.written }
    {
        self.written.as_slice()
    }
}

impl Sink for MemSink {
    // A piece may find no room.
    ghost seen = { λ s. record { told = Some s.written; faults = s.faults; reliable = false } };

    fn put(&mut self, bytes: &[u8]) -> Result<(), Failed>
        // A call fails where its number is listed or the piece does not fit, and else nowhere.
        ensures failed { IsErr result ↔ (NextFails self.old ⊎ (¬ Fits self.old bytes.now)) }

        // What it appends: the piece, or half of it at a listed call, or nothing where it does not fit.
        ensures ok { OnOk result (self.new ≡ after_put self.old bytes.now) }
        ensures listed { NextFails self.old → Fits self.old bytes.now →
            self.new ≡ after_fault self.old (half bytes.now) }
        ensures full { ¬ Fits self.old bytes.now → self.new ≡ after_fault self.old [] }
        ensures count { NeverFalls self.old.faults self.new.faults }
    {
        let listed = self.fail.contains(&self.calls);
        let fits = bytes.len() as u64 <= self.room - self.written.len() as u64;
        self.calls = self.calls.saturating_add(1);
        if fits {
            let piece = if listed {
                &bytes[..bytes.len() / 2]
            } else {
                bytes
            };
            self.written.extend_from_slice(piece).unwrap();
        }
        if fits && !listed {
            Ok(())
        } else {
            self.faults = self.faults.saturating_add(1);
            Err(Failed)
        }
    }
}
