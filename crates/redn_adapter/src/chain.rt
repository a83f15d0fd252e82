ghost use Rattle.std.specs.Prelude.{◌≡◌, ◌+◌, ◌-◌, ◌^◌, ◌<◌};
ghost use Rattle.std.specs.Option.{option_map};
ghost use Rattle.redn_words.specs.States.{fresh_chain};
ghost use Rattle.redn_adapter.specs.Mails.{pending_bytes, after_delivery};

use std::marker::Model;

#[derive(Drop)]
pub enum Mail {
    Absent,
    Pending(Vec<u8>),
    Delivered,
}

/// A chain's message and its receive counter.
#[derive(Drop)]
pub struct Chain {
    mail: Mail,
    received: u64,
}

impl Model for Chain {
    ghost use Rattle.redn_words.specs.States.{Chain as ChainState};

    ghost Value = { ChainState };

    ghost use Rattle.redn_adapter.specs.ChainView.{chain_view};

    ghost view = { chain_view };
}

impl Chain {
    /// A chain whose message is yet to come, if it has one.
    pub fn new(message: Option<Vec<u8>>) -> Self
        ensures { result ≡ fresh_chain (option_map (λ v. v.items) message) }
    {
        let mail = match message {
            Some(bytes) => Mail::Pending(bytes),
            None => Mail::Absent,
        };
        Chain { mail, received: 0 }
    }

    pub fn received(&self) -> u64
        ensures { result ≡ self.now.received }
    {
        self.received
    }

    /// The message that is to come.
    pub fn pending(&self) -> Option<&[u8]>
        ensures { option_map (λ b. b.now) result ≡ pending_bytes self.now.mail }
    {
        match &self.mail {
            Mail::Pending(bytes) => Some(bytes.as_slice()),
            _ => None,
        }
    }

    pub fn mark_delivered(&mut self)
        requires { self.old.received < 2 ^ 64 - 1 }
        ensures { self.new ≡ after_delivery self.old }
    {
        self.mail = Mail::Delivered;
        self.received += 1;
    }
}
