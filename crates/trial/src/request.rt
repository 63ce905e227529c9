// A request's head: what it asks for, and the sizes that it names.
ghost use Rattle.std.specs.Prelude.{◌≤◌};

use forms::{Command, command_of};
use numbers::read;

pub const HEAD_SIZE: usize = 28;

pub const MOST_SIZE: usize = 24640;

pub const MOST_ROOM: usize = 1024;

// The call that is asked for.
#[derive(Clone, Copy)]
pub enum Asked {
    List,
    Write(Command),
    Read,
}

// The call, none where the kind or the command is none; the size of what follows, and the room lent.
#[derive(Clone, Copy)]
pub struct Request {
    pub asked: Option<Asked>,
    pub size: usize,
    pub room: usize,
    ghost small_size: { size ≤ 24640 },
    ghost small_room: { room ≤ 1024 },
}

impl Request {
    // None where a size is too large.
    pub fn of(head: &[u8; HEAD_SIZE]) -> Option<Request> {
        let size = read::<4>(head, 4) as usize;
        let room = read::<4>(head, 8) as usize;
        if MOST_SIZE < size || MOST_ROOM < room {
            return None;
        }
        let asked = asked_in(head);
        Some(Request { asked, size, room })
    }
}

fn asked_in(head: &[u8; HEAD_SIZE]) -> Option<Asked> {
    match read::<4>(head, 0) {
        0 => Some(Asked::List),
        1 => {
            let values = [
                read::<4>(head, 16),
                read::<4>(head, 20),
                read::<4>(head, 24),
            ];
            Some(Asked::Write(command_of(read::<4>(head, 12), values)?))
        }
        2 => Some(Asked::Read),
        _ => None,
    }
}
