// The frames of paper tape: which bytes are sound, the cell that a frame makes, and the frame of a symbol.
ghost use Rattle.std.specs.Prelude.{◌≡◌, ◌%◌, ◌<◌, IfSome};
ghost use Rattle.units.specs.Frames.{sound_frame, cell_of, cell_number, frame_for};

// Whether a byte is a sound frame.
pub fn is_sound(frame: u8) -> bool
    ensures { result ≡ sound_frame frame }
{
    MARKS[usize::from(frame)]
}

// The cell that a frame makes: the symbol in its low six bits if it is sound, else none.
pub fn cell_of(frame: u8) -> Option<u8>
    ensures cell { cell_number result ≡ cell_of frame }
    ensures symbol { IfSome result (λ symbol. symbol < 64) }
{
    is_sound(frame).then_some(frame % 64)
}

// The sound frame of a symbol, taken modulo 64: bit 7 makes the number of ones even.
pub fn frame_for(symbol: u8) -> u8
    ensures { result ≡ frame_for (symbol % 64) }
{
    let symbol = symbol % 64;
    if symbol.count_ones() % 2 == 0 {
        symbol
    } else {
        symbol + 128
    }
}

// For each byte, whether bit 6 is clear and the number of ones is even.
static MARKS: [bool; 256] = [
    true, // 00
    false, // 01
    false, // 02
    true, // 03
    false, // 04
    true, // 05
    true, // 06
    false, // 07
    false, // 08
    true, // 09
    true, // 0A
    false, // 0B
    true, // 0C
    false, // 0D
    false, // 0E
    true, // 0F
    false, // 10
    true, // 11
    true, // 12
    false, // 13
    true, // 14
    false, // 15
    false, // 16
    true, // 17
    true, // 18
    false, // 19
    false, // 1A
    true, // 1B
    false, // 1C
    true, // 1D
    true, // 1E
    false, // 1F
    false, // 20
    true, // 21
    true, // 22
    false, // 23
    true, // 24
    false, // 25
    false, // 26
    true, // 27
    true, // 28
    false, // 29
    false, // 2A
    true, // 2B
    false, // 2C
    true, // 2D
    true, // 2E
    false, // 2F
    true, // 30
    false, // 31
    false, // 32
    true, // 33
    false, // 34
    true, // 35
    true, // 36
    false, // 37
    false, // 38
    true, // 39
    true, // 3A
    false, // 3B
    true, // 3C
    false, // 3D
    false, // 3E
    true, // 3F
    false, // 40
    false, // 41
    false, // 42
    false, // 43
    false, // 44
    false, // 45
    false, // 46
    false, // 47
    false, // 48
    false, // 49
    false, // 4A
    false, // 4B
    false, // 4C
    false, // 4D
    false, // 4E
    false, // 4F
    false, // 50
    false, // 51
    false, // 52
    false, // 53
    false, // 54
    false, // 55
    false, // 56
    false, // 57
    false, // 58
    false, // 59
    false, // 5A
    false, // 5B
    false, // 5C
    false, // 5D
    false, // 5E
    false, // 5F
    false, // 60
    false, // 61
    false, // 62
    false, // 63
    false, // 64
    false, // 65
    false, // 66
    false, // 67
    false, // 68
    false, // 69
    false, // 6A
    false, // 6B
    false, // 6C
    false, // 6D
    false, // 6E
    false, // 6F
    false, // 70
    false, // 71
    false, // 72
    false, // 73
    false, // 74
    false, // 75
    false, // 76
    false, // 77
    false, // 78
    false, // 79
    false, // 7A
    false, // 7B
    false, // 7C
    false, // 7D
    false, // 7E
    false, // 7F
    false, // 80
    true, // 81
    true, // 82
    false, // 83
    true, // 84
    false, // 85
    false, // 86
    true, // 87
    true, // 88
    false, // 89
    false, // 8A
    true, // 8B
    false, // 8C
    true, // 8D
    true, // 8E
    false, // 8F
    true, // 90
    false, // 91
    false, // 92
    true, // 93
    false, // 94
    true, // 95
    true, // 96
    false, // 97
    false, // 98
    true, // 99
    true, // 9A
    false, // 9B
    true, // 9C
    false, // 9D
    false, // 9E
    true, // 9F
    true, // A0
    false, // A1
    false, // A2
    true, // A3
    false, // A4
    true, // A5
    true, // A6
    false, // A7
    false, // A8
    true, // A9
    true, // AA
    false, // AB
    true, // AC
    false, // AD
    false, // AE
    true, // AF
    false, // B0
    true, // B1
    true, // B2
    false, // B3
    true, // B4
    false, // B5
    false, // B6
    true, // B7
    true, // B8
    false, // B9
    false, // BA
    true, // BB
    false, // BC
    true, // BD
    true, // BE
    false, // BF
    false, // C0
    false, // C1
    false, // C2
    false, // C3
    false, // C4
    false, // C5
    false, // C6
    false, // C7
    false, // C8
    false, // C9
    false, // CA
    false, // CB
    false, // CC
    false, // CD
    false, // CE
    false, // CF
    false, // D0
    false, // D1
    false, // D2
    false, // D3
    false, // D4
    false, // D5
    false, // D6
    false, // D7
    false, // D8
    false, // D9
    false, // DA
    false, // DB
    false, // DC
    false, // DD
    false, // DE
    false, // DF
    false, // E0
    false, // E1
    false, // E2
    false, // E3
    false, // E4
    false, // E5
    false, // E6
    false, // E7
    false, // E8
    false, // E9
    false, // EA
    false, // EB
    false, // EC
    false, // ED
    false, // EE
    false, // EF
    false, // F0
    false, // F1
    false, // F2
    false, // F3
    false, // F4
    false, // F5
    false, // F6
    false, // F7
    false, // F8
    false, // F9
    false, // FA
    false, // FB
    false, // FC
    false, // FD
    false, // FE
    false, // FF
];
