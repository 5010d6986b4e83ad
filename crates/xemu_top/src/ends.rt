//! How a command ends.
ghost use Rattle.std.specs.Prelude.{◌≡◌, ◌<◌};
ghost use Rattle.xemu_top.specs.Command.{status_of};

use command_words::WordFault;
use core_step::Machine;
use elf_image::ImageFault;
use host_edge::HostCall;
use start_stack::TooLong;

/// The end of a command.
#[derive(Clone, Copy, Debug, PartialEq, Eq)]
pub enum End {
    /// The guest exited with this status.
    Exit(u8),
    /// The guest was killed by this signal.
    Killed(u8),
    /// The guest was still running when the budget of steps was used.
    Budget,
    /// The words of the command line weren't accepted.
    Words(WordFault),
    /// The program file wasn't accepted.
    Image(ImageFault),
    /// The start stack would be too long.
    Start(TooLong),
    /// A call on the outside failed.
    Host(HostCall),
    /// Memory was wanting before the first step.
    Memory,
}

/// What `emulate` answers: the exit status, the end, and the machine as the guest left it, where the end is the guest's.
#[derive(Drop)]
pub struct Ended {
    pub status: u8,
    pub end: End,
    pub machine: Option<Machine>,
}

impl End {
    ghost use Rattle.xemu_top.specs.Command.{HasSignal};

    /// The exit status of this end.
    pub fn status(self) -> u8
        requires { HasSignal self }
        ensures { result ≡ status_of self }
    {
        match self {
            End::Exit(code) => code,
            End::Killed(signal) => 128 + signal,
            End::Budget => 75,
            End::Words(_) => 64,
            End::Image(_) | End::Start(_) => 65,
            End::Host(_) => 74,
            End::Memory => 71,
        }
    }
}
