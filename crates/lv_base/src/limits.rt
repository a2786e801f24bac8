//! The limits within which a model, a session and a certificate are accepted. All of them are inclusive.
#![tactic(auto)]

/// Parts of a model.
pub const PARTS: u32 = 256;

/// Modes of a component type.
pub const MODES: u32 = 16;

/// Moves of a component type: its steps, stays and faults.
pub const MOVES: u32 = 64;

/// Values of a domain.
pub const VALUES: u32 = 32;

/// Variables of a model, modes included.
pub const VARIABLES: u32 = 4_096;

/// Parentheses open at one place of a line.
pub const OPEN_PARENTHESES: u32 = 64;

/// The tokens `!`, `=>` and `<=>` of a line together.
pub const NESTING_OPERATORS: u32 = 256;

/// Clauses of a formula, in one sign.
pub const FORMULA_CLAUSES: u32 = 4_096;

/// Clauses of a model.
pub const MODEL_CLAUSES: u32 = 1_048_576;

/// Bytes of a name.
pub const NAME_BYTES: usize = 64;

/// What a fault costs, at least and at most.
pub const LEAST_FAULT_COST: u64 = 1;

pub const FAULT_COST: u64 = 1_000_000;

/// What it costs at most to command a value.
pub const PRICE: u64 = 1_000_000;

/// Candidates that a diagnosis lists, where the session says nothing else.
pub const LISTED: u32 = 4;

/// Candidates that a session may ask a diagnosis to list; tracked states, then.
pub const TRACKED: u32 = 64;

/// Trials of a diagnosis or recovery, where the session says nothing else.
pub const TRIALS: u64 = 10_000;

/// Trials that a session may ask for at once.
pub const BUDGET: u64 = 1_000_000;

/// Commits since the start or a reset.
pub const COMMITS: u64 = 1_000_000;

/// Observations held.
pub const OBSERVATIONS: u32 = 1_024;

/// Goals held.
pub const GOALS: u32 = 64;

/// Cost of a tracked state.
pub const TRACKED_COST: u64 = 1_000_000_000_000_000;

/// Bytes of a line, its end not counted.
pub const LINE_BYTES: usize = 4_096;

/// Bytes of a model.
pub const MODEL_BYTES: u64 = 4_194_304;

/// Bytes of a session.
pub const SESSION_BYTES: u64 = 67_108_864;

/// Bytes of a certificate.
pub const CERTIFICATE_BYTES: u64 = 67_108_864;
