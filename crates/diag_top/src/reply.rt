//! What a command answers.
ghost use Rattle.std.specs.Prelude.{◌≡◌, IfOk};

use command_line::Status;
use diag_base::Bytes;
use std::alloc::{AllocError, Global};

/// A status, and the text that is to be written.
#[derive(Drop)]
pub struct Reply {
    pub status: Status,
    pub text: Bytes,
}

impl std::marker::Model for Reply {
    ghost use Rattle.diag_top.specs.Work as work;

    ghost Value = { work.Reply };

    ghost view = { λ reply. record { status = reply.status; text = reply.text } };
}

impl Reply {
    /// A status with a fixed text.
    pub fn of(alloc: Global, status: Status, text: &[u8]) -> Result<Reply, AllocError>
        ensures { IfOk result (λ reply. reply ≡ record { status = status; text = text.now }) }
    {
        let text = Bytes::from_slice(alloc, text)?;
        Ok(Reply { status, text })
    }
}
