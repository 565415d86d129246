//! A call in fields.

ghost use Rattle.std.specs.Prelude.{◌≡◌, option_map};
ghost use Rattle.vk_fields.specs.Reading.{call_in, other_call_in, passing_call_in, scope_in};

use crate::kinds;
use vk_base::{Message, Pid, Scope};
use vk_brief::BriefCall;

/// The fields of any call. `kind` tells which call it is, and so which of the others count; the others may have any values. `host` and
/// `local` are the target of a Send, whom a Reply is to, whose message a Forward hands on, the partner of a move, or the process to
/// register; `to_host` and `to_local` are to whom a Forward hands on.
#[repr(C)]
#[derive(Clone, Copy)]
pub struct CallFields {
    pub kind: u32,
    pub scope: u32,
    pub host: u16,
    pub local: u16,
    pub to_host: u16,
    pub to_local: u16,
    pub logical: u32,
    pub start: u32,
    pub dest: u32,
    pub src: u32,
    pub count: u32,
    pub message: [u8; 32],
}

impl CallFields {
    /// Reads the call, without the bytes of a Store, over another one; or nothing where the kind, a pid or the scope is none. It is
    /// written where it is wanted, since a call that is made first is moved.
    pub fn read(&self, into: &mut BriefCall) -> Option<()>
        ensures { option_map (λ _. into.new) result ≡ call_in self.now }
    {
        if self.kind == kinds::SEND {
            let target = Pid::new(self.host, self.local)?;
            *into = BriefCall::Send {
                target,
                message: Message(self.message),
            };
            Some(())
        } else if self.kind == kinds::RECEIVE {
            *into = BriefCall::Receive;
            Some(())
        } else if self.kind == kinds::REPLY {
            let to = Pid::new(self.host, self.local)?;
            *into = BriefCall::Reply {
                message: Message(self.message),
                to,
            };
            Some(())
        } else if self.kind == kinds::RECEIVE_SEGMENT {
            *into = BriefCall::ReceiveSegment {
                start: self.start,
                count: self.count,
            };
            Some(())
        } else if self.kind == kinds::REPLY_SEGMENT {
            let to = Pid::new(self.host, self.local)?;
            *into = BriefCall::ReplySegment {
                message: Message(self.message),
                to,
                dest: self.dest,
                src: self.src,
                count: self.count,
            };
            Some(())
        } else {
            self.read_passing(into)
        }
    }

    /// The same for the kinds of calls that hand a message on, or move bytes.
    fn read_passing(&self, into: &mut BriefCall) -> Option<()>
        ensures { option_map (λ _. into.new) result ≡ passing_call_in self.now }
    {
        if self.kind == kinds::FORWARD {
            let from = Pid::new(self.host, self.local)?;
            let to = Pid::new(self.to_host, self.to_local)?;
            *into = BriefCall::Forward {
                message: Message(self.message),
                from,
                to,
            };
            Some(())
        } else if self.kind == kinds::MOVE_TO {
            let partner = Pid::new(self.host, self.local)?;
            *into = BriefCall::MoveTo {
                partner,
                dest: self.dest,
                src: self.src,
                count: self.count,
            };
            Some(())
        } else if self.kind == kinds::MOVE_FROM {
            let partner = Pid::new(self.host, self.local)?;
            *into = BriefCall::MoveFrom {
                partner,
                dest: self.dest,
                src: self.src,
                count: self.count,
            };
            Some(())
        } else {
            self.read_other(into)
        }
    }

    /// The same for the kinds of calls that concern one process alone.
    fn read_other(&self, into: &mut BriefCall) -> Option<()>
        ensures { option_map (λ _. into.new) result ≡ other_call_in self.now }
    {
        if self.kind == kinds::SET_PID {
            let pid = Pid::new(self.host, self.local)?;
            let scope = scope_of(self.scope)?;
            *into = BriefCall::SetPid {
                logical: self.logical,
                pid,
                scope,
            };
            Some(())
        } else if self.kind == kinds::GET_PID {
            let scope = scope_of(self.scope)?;
            *into = BriefCall::GetPid {
                logical: self.logical,
                scope,
            };
            Some(())
        } else if self.kind == kinds::LOAD {
            *into = BriefCall::Load {
                start: self.start,
                count: self.count,
            };
            Some(())
        } else if self.kind == kinds::STORE {
            *into = BriefCall::Store { start: self.start };
            Some(())
        } else if self.kind == kinds::EXIT {
            *into = BriefCall::Exit;
            Some(())
        } else {
            None
        }
    }
}

fn scope_of(scope: u32) -> Option<Scope>
    ensures { result ≡ scope_in scope }
{
    if scope == kinds::LOCAL {
        Some(Scope::Local)
    } else if scope == kinds::REMOTE {
        Some(Scope::Remote)
    } else if scope == kinds::BOTH {
        Some(Scope::Both)
    } else {
        None
    }
}
