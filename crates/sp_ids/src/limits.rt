//! The limits of the profile: what a text, a module and a run may have at most.

/// Bytes of a file.
pub const FILE_BYTES: u64 = 16_777_216;
/// Layouts of a module.
pub const LAYOUTS: u32 = 4_096;
/// Defined functions of a module.
pub const FUNCTIONS: u32 = 4_096;
/// Bytes of the name of a layout or of a defined function, without its `%` or `@`.
pub const NAME_BYTES: u32 = 4_096;
/// Fields of a layout.
pub const FIELDS: u32 = 64;
/// Arguments of a defined function.
pub const ARGUMENTS: u32 = 64;
/// Arguments and instructions of a function of the source form together.
pub const FUNCTION_VALUES: u32 = 4_096;
/// Instructions of a module of the source form.
pub const MODULE_INSTRUCTIONS: u32 = 65_536;
/// "gc-live" entries of a statepoint, and relocates that stand in a row.
pub const LIVE_ENTRIES: u32 = 16_384;
/// Relocates that the rewriting makes.
pub const RELOCATES: u64 = 4_194_304;
/// Numbers of an input.
pub const INPUT_NUMBERS: u32 = 1_048_576;
/// Lines of a plan.
pub const PLAN_LINES: u32 = 262_144;
/// Steps that a run may be given.
pub const STEPS: u64 = 1_000_000_000_000;
/// Functions that the generator makes besides `@main`.
pub const GENERATED_FUNCTIONS: u32 = 1_000;
/// Bytes that the footprints of all objects may have together.
pub const HEAP_BYTES: u64 = 67_108_864;
/// Frames of a task.
pub const FRAMES: u32 = 4_096;
/// Tasks that a run may start, task 0 counted.
pub const TASKS: u32 = 64;
