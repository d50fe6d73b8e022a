// The table of 256 rows, one for each command byte.

use super::Row;

// A row: length; cells of the nest needed and left; links needed and left.
macro_rules! row {
    ($length:literal, $nest_needed:literal, $nest_left:literal, $links_needed:literal, $links_left:literal) => {
        Row {
            length: $length,
            nest_needed: $nest_needed,
            nest_left: $nest_left,
            links_needed: $links_needed,
            links_left: $links_left,
        }
    };
}

// A byte that stands in no line of the order list.
const UNKNOWN: Row = row!(1, 0, 0, 0, 0);

pub(super) static TABLE: [Row; 256] = [
    UNKNOWN, // 00
    row!(1, 0, 1, 0, 0), // 01 ZERO
    row!(1, 1, 2, 0, 0), // 02 DUP
    row!(1, 1, 0, 0, 0), // 03 ERASE
    row!(1, 2, 2, 0, 0), // 04 REV
    row!(1, 3, 3, 0, 0), // 05 PERM
    row!(1, 3, 3, 0, 0), // 06 CAB
    row!(1, 2, 1, 0, 0), // 07 +
    row!(1, 2, 1, 0, 0), // 08 -
    row!(1, 1, 1, 0, 0), // 09 NEG
    row!(1, 1, 1, 0, 0), // 0a ABS
    row!(1, 2, 1, 0, 0), // 0b SIGN
    row!(1, 1, 1, 0, 0), // 0c NOT
    row!(1, 2, 1, 0, 0), // 0d AND
    row!(1, 2, 1, 0, 0), // 0e OR
    row!(1, 2, 1, 0, 0), // 0f NEV
    row!(1, 1, 1, 0, 0), // 10 BITS
    row!(1, 0, 0, 0, 0), // 11 DUMMY
    row!(1, 0, 0, 0, 0), // 12 VR
    row!(1, 1, 0, 0, 0), // 13 =TR
    row!(1, 0, 1, 1, 0), // 14 LINK
    row!(1, 1, 0, 0, 1), // 15 =LINK
    row!(1, 1, 0, 0, 0), // 16 OUT
    UNKNOWN, // 17
    UNKNOWN, // 18
    UNKNOWN, // 19
    UNKNOWN, // 1a
    UNKNOWN, // 1b
    UNKNOWN, // 1c
    UNKNOWN, // 1d
    UNKNOWN, // 1e
    UNKNOWN, // 1f
    row!(2, 0, 0, 0, 0), // 20 M+I
    row!(2, 0, 0, 0, 0), // 21 M-I
    row!(2, 0, 0, 0, 0), // 22 NC
    row!(2, 0, 0, 0, 0), // 23 DC
    row!(2, 0, 0, 0, 0), // 24 I=1
    row!(2, 0, 0, 0, 0), // 25 I=-1
    row!(2, 0, 0, 0, 0), // 26 I=2
    row!(2, 0, 0, 0, 0), // 27 I=-2
    row!(2, 0, 1, 0, 0), // 28 Q
    row!(2, 0, 1, 0, 0), // 29 C
    row!(2, 0, 1, 0, 0), // 2a I
    row!(2, 0, 1, 0, 0), // 2b M
    row!(2, 1, 0, 0, 0), // 2c =Q
    row!(2, 1, 0, 0, 0), // 2d =C
    row!(2, 1, 0, 0, 0), // 2e =I
    row!(2, 1, 0, 0, 0), // 2f =M
    row!(2, 1, 0, 0, 0), // 30 =RC
    row!(2, 1, 0, 0, 0), // 31 =RI
    row!(2, 1, 0, 0, 0), // 32 =RM
    row!(2, 1, 1, 0, 0), // 33 SHAC
    row!(2, 1, 1, 0, 0), // 34 SHLC
    row!(2, 1, 1, 0, 0), // 35 SHCC
    UNKNOWN, // 36
    UNKNOWN, // 37
    row!(2, 0, 0, 0, 0), // 38 RD
    row!(2, 0, 0, 0, 0), // 39 RDE
    row!(2, 0, 0, 0, 0), // 3a WR
    row!(2, 0, 0, 0, 0), // 3b WRE
    row!(2, 0, 0, 0, 0), // 3c SEEK
    row!(2, 0, 0, 0, 0), // 3d BUSY
    UNKNOWN, // 3e
    UNKNOWN, // 3f
    row!(2, 1, 1, 0, 0), // 40 SHA
    row!(2, 1, 1, 0, 0), // 41 SHL
    row!(2, 1, 1, 0, 0), // 42 SHC
    row!(2, 0, 0, 1, 0), // 43 EXIT
    UNKNOWN, // 44
    UNKNOWN, // 45
    UNKNOWN, // 46
    UNKNOWN, // 47
    UNKNOWN, // 48
    UNKNOWN, // 49
    UNKNOWN, // 4a
    UNKNOWN, // 4b
    UNKNOWN, // 4c
    UNKNOWN, // 4d
    UNKNOWN, // 4e
    UNKNOWN, // 4f
    row!(3, 0, 0, 0, 0), // 50 J
    row!(3, 0, 0, 0, 1), // 51 JS
    row!(3, 1, 0, 0, 0), // 52 J=Z
    row!(3, 1, 0, 0, 0), // 53 J#Z
    row!(3, 1, 0, 0, 0), // 54 J<Z
    row!(3, 1, 0, 0, 0), // 55 J>=Z
    row!(3, 1, 0, 0, 0), // 56 J>Z
    row!(3, 1, 0, 0, 0), // 57 J<=Z
    row!(3, 0, 0, 0, 0), // 58 JEN
    row!(3, 0, 0, 0, 0), // 59 JNEN
    row!(3, 0, 0, 0, 0), // 5a JEJ
    row!(3, 0, 0, 0, 0), // 5b JNEJ
    row!(3, 0, 0, 0, 0), // 5c JTR
    row!(3, 0, 0, 0, 0), // 5d JNTR
    row!(3, 0, 0, 0, 0), // 5e JV
    row!(3, 0, 0, 0, 0), // 5f JNV
    row!(3, 0, 1, 0, 0), // 60 SET
    UNKNOWN, // 61
    UNKNOWN, // 62
    UNKNOWN, // 63
    UNKNOWN, // 64
    UNKNOWN, // 65
    UNKNOWN, // 66
    UNKNOWN, // 67
    row!(4, 0, 0, 0, 0), // 68 JCZ
    row!(4, 0, 0, 0, 0), // 69 JCNZ
    UNKNOWN, // 6a
    UNKNOWN, // 6b
    UNKNOWN, // 6c
    UNKNOWN, // 6d
    UNKNOWN, // 6e
    UNKNOWN, // 6f
    row!(4, 0, 1, 0, 0), // 70 E
    row!(4, 0, 1, 0, 0), // 71 EQ
    row!(4, 1, 0, 0, 0), // 72 =E
    row!(4, 1, 0, 0, 0), // 73 =EQ
    UNKNOWN, // 74
    UNKNOWN, // 75
    UNKNOWN, // 76
    UNKNOWN, // 77
    row!(3, 0, 1, 0, 0), // 78 MM
    row!(3, 1, 0, 0, 0), // 79 =MM
    row!(3, 0, 1, 0, 0), // 7a MMQ
    row!(3, 1, 0, 0, 0), // 7b =MMQ
    row!(3, 0, 1, 0, 0), // 7c MMH
    row!(3, 1, 0, 0, 0), // 7d =MMH
    UNKNOWN, // 7e
    UNKNOWN, // 7f
    row!(3, 0, 0, 0, 0), // 80 MTO
    row!(3, 0, 0, 0, 0), // 81 ITO
    row!(3, 0, 0, 0, 0), // 82 IMTO
    row!(3, 0, 0, 0, 0), // 83 CTO
    row!(3, 0, 0, 0, 0), // 84 CMTO
    row!(3, 0, 0, 0, 0), // 85 CITO
    row!(3, 0, 0, 0, 0), // 86 QTO
    UNKNOWN, // 87
    UNKNOWN, // 88
    UNKNOWN, // 89
    UNKNOWN, // 8a
    UNKNOWN, // 8b
    UNKNOWN, // 8c
    UNKNOWN, // 8d
    UNKNOWN, // 8e
    UNKNOWN, // 8f
    UNKNOWN, // 90
    UNKNOWN, // 91
    UNKNOWN, // 92
    UNKNOWN, // 93
    UNKNOWN, // 94
    UNKNOWN, // 95
    UNKNOWN, // 96
    UNKNOWN, // 97
    UNKNOWN, // 98
    UNKNOWN, // 99
    UNKNOWN, // 9a
    UNKNOWN, // 9b
    UNKNOWN, // 9c
    UNKNOWN, // 9d
    UNKNOWN, // 9e
    UNKNOWN, // 9f
    UNKNOWN, // a0
    UNKNOWN, // a1
    UNKNOWN, // a2
    UNKNOWN, // a3
    UNKNOWN, // a4
    UNKNOWN, // a5
    UNKNOWN, // a6
    UNKNOWN, // a7
    UNKNOWN, // a8
    UNKNOWN, // a9
    UNKNOWN, // aa
    UNKNOWN, // ab
    UNKNOWN, // ac
    UNKNOWN, // ad
    UNKNOWN, // ae
    UNKNOWN, // af
    UNKNOWN, // b0
    UNKNOWN, // b1
    UNKNOWN, // b2
    UNKNOWN, // b3
    UNKNOWN, // b4
    UNKNOWN, // b5
    UNKNOWN, // b6
    UNKNOWN, // b7
    UNKNOWN, // b8
    UNKNOWN, // b9
    UNKNOWN, // ba
    UNKNOWN, // bb
    UNKNOWN, // bc
    UNKNOWN, // bd
    UNKNOWN, // be
    UNKNOWN, // bf
    UNKNOWN, // c0
    UNKNOWN, // c1
    UNKNOWN, // c2
    UNKNOWN, // c3
    UNKNOWN, // c4
    UNKNOWN, // c5
    UNKNOWN, // c6
    UNKNOWN, // c7
    UNKNOWN, // c8
    UNKNOWN, // c9
    UNKNOWN, // ca
    UNKNOWN, // cb
    UNKNOWN, // cc
    UNKNOWN, // cd
    UNKNOWN, // ce
    UNKNOWN, // cf
    UNKNOWN, // d0
    UNKNOWN, // d1
    UNKNOWN, // d2
    UNKNOWN, // d3
    UNKNOWN, // d4
    UNKNOWN, // d5
    UNKNOWN, // d6
    UNKNOWN, // d7
    UNKNOWN, // d8
    UNKNOWN, // d9
    UNKNOWN, // da
    UNKNOWN, // db
    UNKNOWN, // dc
    UNKNOWN, // dd
    UNKNOWN, // de
    UNKNOWN, // df
    UNKNOWN, // e0
    UNKNOWN, // e1
    UNKNOWN, // e2
    UNKNOWN, // e3
    UNKNOWN, // e4
    UNKNOWN, // e5
    UNKNOWN, // e6
    UNKNOWN, // e7
    UNKNOWN, // e8
    UNKNOWN, // e9
    UNKNOWN, // ea
    UNKNOWN, // eb
    UNKNOWN, // ec
    UNKNOWN, // ed
    UNKNOWN, // ee
    UNKNOWN, // ef
    UNKNOWN, // f0
    UNKNOWN, // f1
    UNKNOWN, // f2
    UNKNOWN, // f3
    UNKNOWN, // f4
    UNKNOWN, // f5
    UNKNOWN, // f6
    UNKNOWN, // f7
    UNKNOWN, // f8
    UNKNOWN, // f9
    UNKNOWN, // fa
    UNKNOWN, // fb
    UNKNOWN, // fc
    UNKNOWN, // fd
    UNKNOWN, // fe
    UNKNOWN, // ff
];
