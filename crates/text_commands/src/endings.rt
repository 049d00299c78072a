//! How a subcommand ends.
ghost use Rattle.std.specs.Prelude.{◌≡◌, ◌≢◌, ◌⊎◌, IfOk, string_bytes};
ghost use Rattle.std.specs.Io.KnownBytes.{Appends};
ghost use Rattle.text_commands.specs.Endings.{IsEarly, line_of, of_batch, of_input, of_known, of_roster, of_scene, status_of};
ghost use Rattle.text_commands.specs.declared.endings.Ending.TheVariants as endings;

use known_state::KnownError;
use learner::Fault;
use node_text::SceneError;
use peers_devices::{Faults, ReadError, write_all};
use std::alloc::{AllocError, Global};
use std::io::Write;
use table_types::{BatchError, Memory, RosterError};
use teach_writer::TeachError;

/// How a subcommand ends, which decides its exit status and the line on the writer for errors.
#[derive(Clone, Copy, Debug, PartialEq, Eq)]
pub enum Ending {
    /// The subcommand did all that it was to do. The line is empty.
    Done,
    /// The first line that breaks a rule or a limit has this number, from 1: `line N: refused`.
    Line(usize),
    /// No line is refused, but the scene lacks what the subcommand needs, or asks for what it can't do: `scene: refused`.
    Scene,
    /// A line of the configuration is refused, or lacks. The writer for errors has the lines that say why, and that of the ending is
    /// empty.
    Configuration,
    /// The stream has this fault: `fault` and its name.
    Stream(Fault),
    /// The verdict on the stream isn't that it is the shortest. The output has the verdict, and the line is empty.
    NotShortest,
    /// A table refused a call of a session for a reason that no session can cause: `fault Strange`.
    Strange,
    /// A session received what it hadn't asked for: `fault Unasked`.
    Unasked,
    /// Memory ran out: `memory`.
    Memory,
    /// A device failed: `device`.
    Device,
}

impl Ending {
    /// Returns the exit status: 0 for `Done`, 3 if memory ran out, 4 if a device failed, and otherwise 1. (2 is for a command
    /// line that is refused.)
    pub fn status(self) -> u8
        ensures { result ≡ status_of self }
    {
        match self {
            Ending::Done => 0,
            Ending::Line(_)
            | Ending::Scene
            | Ending::Configuration
            | Ending::Stream(_)
            | Ending::NotShortest
            | Ending::Strange
            | Ending::Unasked => 1,
            Ending::Memory => 3,
            Ending::Device => 4,
        }
    }

    /// Writes the line of the ending to `errors`, and returns how the program ends: as `self`, with `Memory` if the line
    /// couldn't be allocated, or with `Device` if the writer failed. Unless that is `Device`, its line has been written.
    pub fn said<E: Write + Faults>(self, alloc: Global, errors: &mut E) -> Ending
        ensures ends { (result ≡ self) ⊎ ((result ≡ Ending.Memory) ⊎ (result ≡ Ending.Device)) }
        ensures said { result ≢ Ending.Device → Appends (E.contents errors.old) (E.contents errors.new) (line_of result) }
    {
        match self.line(alloc) {
            Ok(line) => self.written(errors, line.as_str()),
            Err(_) => Ending::Memory.written(errors, "memory\n"),
        }
    }

    /// Writes to `errors` that a device failed, if it can. It allocates nothing.
    pub fn device<E: Write + Faults>(errors: &mut E) -> Ending
        ensures { result ≡ Ending.Device }
    {
        Ending::Device.written(errors, "device\n")
    }

    /// Writes `line` to `errors`, and returns this ending, or `Device` if the writer failed.
    pub fn written<E: Write + Faults>(self, errors: &mut E, line: &str) -> Ending
        ensures ends { (result ≡ self) ⊎ (result ≡ Ending.Device) }
        ensures written { result ≢ Ending.Device → Appends (E.contents errors.old) (E.contents errors.new) line.now }
    {
        match write_all(errors, line.as_bytes()) {
            Ok(()) => self,
            Err(_) => Ending::Device,
        }
    }

    /// Returns the line of the ending.
    pub fn line(self, alloc: Global) -> Result<String, AllocError>
        ensures { IfOk result (λ line. string_bytes line ≡ line_of self) }
    {
        match self {
            Ending::Done | Ending::Configuration | Ending::NotShortest => Ok(String::new(alloc)),
            Ending::Line(number) => format!(in alloc; "line {number}: refused\n"),
            Ending::Scene => String::from_str(alloc, "scene: refused\n"),
            Ending::Stream(fault) => {
                let name = fault.name();
                format!(in alloc; "fault {name}\n")
            }
            Ending::Strange => String::from_str(alloc, "fault Strange\n"),
            Ending::Unasked => String::from_str(alloc, "fault Unasked\n"),
            Ending::Memory => String::from_str(alloc, "memory\n"),
            Ending::Device => String::from_str(alloc, "device\n"),
        }
    }
}

impl From<AllocError> for Ending {
    ghost from_gives = { λ _ ending. (ending ≡ endings.Memory) × IsEarly ending };

    fn from(_refused: AllocError) -> Ending {
        Ending::Memory
    }
}

impl From<Memory> for Ending {
    ghost from_gives = { λ _ ending. (ending ≡ endings.Memory) × IsEarly ending };

    fn from(_refused: Memory) -> Ending {
        Ending::Memory
    }
}

impl From<ReadError> for Ending {
    ghost from_gives = { λ error ending. (ending ≡ of_input error) × IsEarly ending };

    fn from(error: ReadError) -> Ending {
        match error {
            ReadError::Failed | ReadError::Endless => Ending::Device,
            ReadError::Memory => Ending::Memory,
        }
    }
}

impl From<SceneError> for Ending {
    ghost from_gives = { λ error ending. (ending ≡ of_scene error) × IsEarly ending };

    fn from(error: SceneError) -> Ending {
        match error {
            SceneError::Line(number) => Ending::Line(number),
            SceneError::Scene => Ending::Scene,
            SceneError::Memory => Ending::Memory,
        }
    }
}

impl From<RosterError> for Ending {
    ghost from_gives = { λ error ending. (ending ≡ of_roster error) × IsEarly ending };

    fn from(error: RosterError) -> Ending {
        match error {
            RosterError::Memory => Ending::Memory,
            _ => Ending::Scene,
        }
    }
}

impl From<BatchError> for Ending {
    ghost from_gives = { λ error ending. (ending ≡ of_batch error) × IsEarly ending };

    fn from(error: BatchError) -> Ending {
        match error {
            BatchError::Memory => Ending::Memory,
            _ => Ending::Scene,
        }
    }
}

impl From<KnownError> for Ending {
    ghost from_gives = { λ error ending. (ending ≡ of_known error) × IsEarly ending };

    fn from(error: KnownError) -> Ending {
        match error {
            KnownError::Memory => Ending::Memory,
            _ => Ending::Scene,
        }
    }
}

impl From<TeachError> for Ending {
    ghost from_gives = { λ _ ending. (ending ≡ endings.Memory) × IsEarly ending };

    fn from(error: TeachError) -> Ending {
        match error {
            TeachError::Memory => Ending::Memory,
        }
    }
}
