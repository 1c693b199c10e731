// What an AMO with an operation writes, of the value read and the operand.
#![tactic(auto)]

ghost use Rattle.std.specs.Prelude.{◌≡◌};
ghost use Rattle.operation.specs.Operation.{added, anded, ored, xored, larger, smaller, applied};

// The operations, by the names of the instructions.
#[derive(Clone, Copy)]
pub struct Operation;

impl Operation {
    pub const NONE: u8 = 0;

    pub const ADD: u8 = 1;

    pub const AND: u8 = 2;

    pub const OR: u8 = 3;

    pub const XOR: u8 = 4;

    pub const MAXU: u8 = 5;

    pub const MINU: u8 = 6;
}

fn add(value: u16, operand: u8) -> u16
    ensures { result ≡ added value operand }
{
    value.wrapping_add(u16::from(operand))
}

fn and(value: u16, operand: u8) -> u16
    ensures { result ≡ anded value operand }
{
    value & u16::from(operand)
}

fn or(value: u16, operand: u8) -> u16
    ensures { result ≡ ored value operand }
{
    value | u16::from(operand)
}

fn xor(value: u16, operand: u8) -> u16
    ensures { result ≡ xored value operand }
{
    value ^ u16::from(operand)
}

#[tactic(auto, unfolding(crate::specs::Operation::larger))]
fn maxu(value: u16, operand: u8) -> u16
    ensures { result ≡ larger value operand }
{
    value.max(u16::from(operand))
}

#[tactic(auto, unfolding(crate::specs::Operation::smaller))]
fn minu(value: u16, operand: u8) -> u16
    ensures { result ≡ smaller value operand }
{
    value.min(u16::from(operand))
}

// The value written.
#[tactic(auto, unfolding(crate::specs::Operation::applied))]
pub fn apply(operation: u8, value: u16, operand: u8) -> u16
    ensures { result ≡ applied operation value operand }
{
    match operation {
        Operation::ADD => add(value, operand),
        Operation::AND => and(value, operand),
        Operation::OR => or(value, operand),
        Operation::XOR => xor(value, operand),
        Operation::MAXU => maxu(value, operand),
        Operation::MINU => minu(value, operand),
        _ => 0,
    }
}
