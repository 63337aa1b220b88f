// The opcodes, in the order of the table: each has one arm in `arms`.
pub const LD: u32 = 0;

pub const ST: u32 = 1;

pub const LI: u32 = 2;

pub const ADD: u32 = 3;

pub const SUB: u32 = 4;

pub const MUL: u32 = 5;

pub const MULF: u32 = 6;

pub const RECP: u32 = 7;

pub const AND: u32 = 8;

pub const OR: u32 = 9;

pub const XOR: u32 = 10;

pub const NOT: u32 = 11;

pub const LSL: u32 = 12;

pub const LSR: u32 = 13;

pub const ASR: u32 = 14;

pub const LSLI: u32 = 15;

pub const LSRI: u32 = 16;

pub const ASRI: u32 = 17;

pub const JMP: u32 = 18;

pub const CALL: u32 = 19;

pub const JEQ: u32 = 20;

pub const JEQL: u32 = 21;

pub const JNE: u32 = 22;

pub const JNEL: u32 = 23;

pub const JLT: u32 = 24;

pub const JLTL: u32 = 25;

pub const JLE: u32 = 26;

pub const JLEL: u32 = 27;

pub const JGT: u32 = 28;

pub const JGTL: u32 = 29;

pub const JGE: u32 = 30;

pub const JGEL: u32 = 31;

pub const DOT: u32 = 32;

pub const READ: u32 = 33;

pub const WRITE: u32 = 34;

pub const SCRSET: u32 = 35;

pub const CLS: u32 = 36;

pub const TREESET: u32 = 37;

pub const TREEIN: u32 = 38;

pub const TREEVAL: u32 = 39;

pub const TREEPUT: u32 = 40;
