//! The words that names, comments and templates are made of.

/// What a name begins with.
pub static OWNERS: [&str; 24] = [
    "beam", "pump", "valve", "tank", "gauge", "magnet", "cavity", "shutter", "motor", "heater",
    "cooler", "mirror", "klystron", "ring", "booster", "oven", "crate", "detector", "chopper",
    "ion", "vacuum", "rf", "hutch", "target",
];

/// What a name goes on with, before its number.
pub static QUANTITIES: [&str; 20] = [
    "Pressure", "Level", "Current", "Voltage", "Position", "Limit", "Rate", "Setpoint", "Readback",
    "Status", "Count", "Delay", "Ready", "Fault", "Offset", "Gain", "Phase", "Power", "Flow",
    "_temp",
];

/// What the name of a state begins with.
pub static STATES: [&str; 16] = [
    "idle",
    "ramping",
    "holding",
    "opening",
    "closing",
    "waiting",
    "cooling",
    "heating",
    "moving",
    "starting",
    "stopping",
    "checking",
    "resetting",
    "interlocked",
    "measuring",
    "finished",
];

/// Words of comments.
pub static PLAIN: [&str; 24] = [
    "the", "pump", "is", "on", "while", "pressure", "stays", "below", "its", "limit", "and",
    "operator", "waits", "for", "beam", "until", "valve", "has", "closed", "again", "after",
    "this", "step", "see",
];
