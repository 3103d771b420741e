//! The table of byte classes.
use super::Class;

/// The class of each of the 256 byte values, in their order.
pub const CLASSES: [Class; 256] = [
    // 0 to 15
    Class::Other,
    Class::Other,
    Class::Other,
    Class::Other,
    Class::Other,
    Class::Other,
    Class::Other,
    Class::Other,
    Class::Other,
    Class::Blank, // tab
    Class::Blank, // line feed
    Class::Other,
    Class::Other,
    Class::Blank, // carriage return
    Class::Other,
    Class::Other,
    // 16 to 31
    Class::Other,
    Class::Other,
    Class::Other,
    Class::Other,
    Class::Other,
    Class::Other,
    Class::Other,
    Class::Other,
    Class::Other,
    Class::Other,
    Class::Other,
    Class::Other,
    Class::Other,
    Class::Other,
    Class::Other,
    Class::Other,
    // 32 to 47
    Class::Blank, // space
    Class::Sign, // !
    Class::Other,
    Class::Other,
    Class::Other,
    Class::Other,
    Class::Twin, // &
    Class::Other,
    Class::Sign, // (
    Class::Sign, // )
    Class::Sign, // *
    Class::Sign, // +
    Class::Sign, // ,
    Class::Sign, // -
    Class::Sign, // .
    Class::Sign, // /
    // 48 to 63
    Class::Digit, // 0
    Class::Digit, // 1
    Class::Digit, // 2
    Class::Digit, // 3
    Class::Digit, // 4
    Class::Digit, // 5
    Class::Digit, // 6
    Class::Digit, // 7
    Class::Digit, // 8
    Class::Digit, // 9
    Class::Other,
    Class::Sign, // ;
    Class::Sign, // <
    Class::Sign, // =
    Class::Sign, // >
    Class::Other,
    // 64 to 79
    Class::Other,
    Class::Letter, // A
    Class::Letter, // B
    Class::Letter, // C
    Class::Letter, // D
    Class::Letter, // E
    Class::Letter, // F
    Class::Letter, // G
    Class::Letter, // H
    Class::Letter, // I
    Class::Letter, // J
    Class::Letter, // K
    Class::Letter, // L
    Class::Letter, // M
    Class::Letter, // N
    Class::Letter, // O
    // 80 to 95
    Class::Letter, // P
    Class::Letter, // Q
    Class::Letter, // R
    Class::Letter, // S
    Class::Letter, // T
    Class::Letter, // U
    Class::Letter, // V
    Class::Letter, // W
    Class::Letter, // X
    Class::Letter, // Y
    Class::Letter, // Z
    Class::Other,
    Class::Other,
    Class::Other,
    Class::Other,
    Class::Other,
    // 96 to 111
    Class::Other,
    Class::Letter, // a
    Class::Letter, // b
    Class::Letter, // c
    Class::Letter, // d
    Class::Letter, // e
    Class::Letter, // f
    Class::Letter, // g
    Class::Letter, // h
    Class::Letter, // i
    Class::Letter, // j
    Class::Letter, // k
    Class::Letter, // l
    Class::Letter, // m
    Class::Letter, // n
    Class::Letter, // o
    // 112 to 127
    Class::Letter, // p
    Class::Letter, // q
    Class::Letter, // r
    Class::Letter, // s
    Class::Letter, // t
    Class::Letter, // u
    Class::Letter, // v
    Class::Letter, // w
    Class::Letter, // x
    Class::Letter, // y
    Class::Letter, // z
    Class::Other,
    Class::Twin, // |
    Class::Other,
    Class::Other,
    Class::Other,
    // 128 to 255: no ASCII
    Class::Other,
    Class::Other,
    Class::Other,
    Class::Other,
    Class::Other,
    Class::Other,
    Class::Other,
    Class::Other,
    Class::Other,
    Class::Other,
    Class::Other,
    Class::Other,
    Class::Other,
    Class::Other,
    Class::Other,
    Class::Other,
    Class::Other,
    Class::Other,
    Class::Other,
    Class::Other,
    Class::Other,
    Class::Other,
    Class::Other,
    Class::Other,
    Class::Other,
    Class::Other,
    Class::Other,
    Class::Other,
    Class::Other,
    Class::Other,
    Class::Other,
    Class::Other,
    Class::Other,
    Class::Other,
    Class::Other,
    Class::Other,
    Class::Other,
    Class::Other,
    Class::Other,
    Class::Other,
    Class::Other,
    Class::Other,
    Class::Other,
    Class::Other,
    Class::Other,
    Class::Other,
    Class::Other,
    Class::Other,
    Class::Other,
    Class::Other,
    Class::Other,
    Class::Other,
    Class::Other,
    Class::Other,
    Class::Other,
    Class::Other,
    Class::Other,
    Class::Other,
    Class::Other,
    Class::Other,
    Class::Other,
    Class::Other,
    Class::Other,
    Class::Other,
    Class::Other,
    Class::Other,
    Class::Other,
    Class::Other,
    Class::Other,
    Class::Other,
    Class::Other,
    Class::Other,
    Class::Other,
    Class::Other,
    Class::Other,
    Class::Other,
    Class::Other,
    Class::Other,
    Class::Other,
    Class::Other,
    Class::Other,
    Class::Other,
    Class::Other,
    Class::Other,
    Class::Other,
    Class::Other,
    Class::Other,
    Class::Other,
    Class::Other,
    Class::Other,
    Class::Other,
    Class::Other,
    Class::Other,
    Class::Other,
    Class::Other,
    Class::Other,
    Class::Other,
    Class::Other,
    Class::Other,
    Class::Other,
    Class::Other,
    Class::Other,
    Class::Other,
    Class::Other,
    Class::Other,
    Class::Other,
    Class::Other,
    Class::Other,
    Class::Other,
    Class::Other,
    Class::Other,
    Class::Other,
    Class::Other,
    Class::Other,
    Class::Other,
    Class::Other,
    Class::Other,
    Class::Other,
    Class::Other,
    Class::Other,
    Class::Other,
    Class::Other,
    Class::Other,
    Class::Other,
    Class::Other,
    Class::Other,
    Class::Other,
    Class::Other,
];
