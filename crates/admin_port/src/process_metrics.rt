//! The families of metrics of the process, by the names that all exporters use, and of the program.
ghost use Rattle.std.specs.Prelude.{◌≡◌, ◌++◌, OnOk};
ghost use Rattle.admin_port.specs.ProcessMetrics.{build_family, build_sample, family_help, family_kind, family_name, optional_sample, optional_seconds, process_families, process_family, process_sample};

use crate::samples::{Label, push_head, push_sample, push_seconds};
use std::alloc::AllocError;

/// What the system counts of the process, as far as it says it.
#[derive(Clone, Copy, Debug)]
pub struct ProcessMetrics {
    /// The bytes that are in memory.
    pub resident_memory_bytes: Option<u64>,
    /// The file descriptors that are open.
    pub open_fds: Option<u64>,
    /// When it began, in milliseconds since 1970.
    pub start_time: Option<u64>,
    /// The time for which it worked, in milliseconds.
    pub cpu_time: Option<u64>,
}

/// What the program is built from.
#[derive(Clone, Copy, Debug)]
pub struct BuildInfo {
    /// The version.
    pub version: &'static str,
    /// The kit.
    pub kit: &'static str,
}

/// A family of the process.
#[derive(Clone, Copy)]
enum ProcessFamily {
    /// The memory.
    ResidentMemory,
    /// The file descriptors.
    OpenFds,
    /// When it began.
    StartTime,
    /// For how long it worked.
    CpuTime,
}

impl ProcessFamily {
    /// Returns the name of the family.
    fn name(self) -> &'static str
        ensures { result.now ≡ family_name self }
    {
        match self {
            ProcessFamily::ResidentMemory => "process_resident_memory_bytes",
            ProcessFamily::OpenFds => "process_open_fds",
            ProcessFamily::StartTime => "process_start_time_seconds",
            ProcessFamily::CpuTime => "process_cpu_seconds_total",
        }
    }

    /// Returns `counter` if the value only goes up, and otherwise `gauge`.
    fn kind(self) -> &'static str
        ensures { result.now ≡ family_kind self }
    {
        match self {
            ProcessFamily::ResidentMemory | ProcessFamily::OpenFds | ProcessFamily::StartTime => {
                "gauge"
            }
            ProcessFamily::CpuTime => "counter",
        }
    }

    /// Returns what the family measures.
    fn help(self) -> &'static str
        ensures { result.now ≡ family_help self }
    {
        match self {
            ProcessFamily::ResidentMemory => "Resident memory size in bytes.",
            ProcessFamily::OpenFds => "Number of open file descriptors.",
            ProcessFamily::StartTime => { "Start time of the process since unix epoch in seconds." }
            ProcessFamily::CpuTime => "Total user and system CPU time spent in seconds.",
        }
    }
}

/// Appends the families of the process and of the program.
pub(crate) fn push_process_families(
    text: &mut Vec<u8>,
    build: BuildInfo,
    process: ProcessMetrics,
) -> Result<(), AllocError>
    ensures { OnOk result (text.new.items ≡ text.old.items ++ process_families build process) }
{
    push_build(text, build)?;
    push_family(text, process, ProcessFamily::ResidentMemory)?;
    push_family(text, process, ProcessFamily::OpenFds)?;
    push_family(text, process, ProcessFamily::StartTime)?;
    push_family(text, process, ProcessFamily::CpuTime)
}

/// Appends what the program is built from.
#[tactic(auto, unfolding(crate::specs::ProcessMetrics::build_family))]
fn push_build(text: &mut Vec<u8>, build: BuildInfo) -> Result<(), AllocError>
    ensures { OnOk result (text.new.items ≡ text.old.items ++ build_family build) }
{
    push_head(
        text,
        "digbaro_build_info",
        "gauge",
        "The program's version, and the kit that built it.",
    )?;
    push_build_sample(text, build)
}

/// Appends the sample of what the program is built from.
#[tactic(auto, unfolding(crate::specs::ProcessMetrics::build_sample))]
fn push_build_sample(text: &mut Vec<u8>, build: BuildInfo) -> Result<(), AllocError>
    ensures { OnOk result (text.new.items ≡ text.old.items ++ build_sample build) }
{
    let labels = [
        Label {
            name: "version",
            value: build.version.as_bytes(),
        },
        Label {
            name: "kit",
            value: build.kit.as_bytes(),
        },
    ];
    push_sample(text, "digbaro_build_info", labels.as_slice(), 1)
}

/// Appends a family of the process, which has no sample if the system doesn't say the value.
#[tactic(auto, unfolding(crate::specs::ProcessMetrics::process_family))]
fn push_family(
    text: &mut Vec<u8>,
    process: ProcessMetrics,
    family: ProcessFamily,
) -> Result<(), AllocError>
    ensures { OnOk result (text.new.items ≡ text.old.items ++ process_family family process) }
{
    push_head(text, family.name(), family.kind(), family.help())?;
    push_process_sample(text, process, family)
}

/// Appends the sample of a family.
fn push_process_sample(
    text: &mut Vec<u8>,
    process: ProcessMetrics,
    family: ProcessFamily,
) -> Result<(), AllocError>
    ensures { OnOk result (text.new.items ≡ text.old.items ++ process_sample family process) }
{
    let name = family.name();
    match family {
        ProcessFamily::ResidentMemory => {
            push_optional_sample(text, name, process.resident_memory_bytes)
        }
        ProcessFamily::OpenFds => push_optional_sample(text, name, process.open_fds),
        ProcessFamily::StartTime => push_optional_seconds(text, name, process.start_time),
        ProcessFamily::CpuTime => push_optional_seconds(text, name, process.cpu_time),
    }
}

/// Appends the sample of a value, if there is one.
fn push_optional_sample(
    text: &mut Vec<u8>,
    name: &str,
    value: Option<u64>,
) -> Result<(), AllocError>
    ensures { OnOk result (text.new.items ≡ text.old.items ++ optional_sample name.now value) }
{
    match value {
        Some(value) => push_sample(text, name, &[], value),
        None => Ok(()),
    }
}

/// Appends the sample of a time, if there is one.
fn push_optional_seconds(
    text: &mut Vec<u8>,
    name: &str,
    milliseconds: Option<u64>,
) -> Result<(), AllocError>
    ensures { OnOk result (text.new.items ≡ text.old.items ++ optional_seconds name.now milliseconds) }
{
    match milliseconds {
        Some(milliseconds) => push_seconds(text, name, &[], milliseconds),
        None => Ok(()),
    }
}
