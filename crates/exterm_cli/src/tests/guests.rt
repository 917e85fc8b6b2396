// The files of the tests, by their names: programs, which were assembled by GNU as, texts of patch files, and others.
use File::{Aligned, Bytes, Changed, Heap, Placed, Plain, Reentrant, Zeros};
use std::alloc::{AllocError, Global};

// What a file holds.
#[derive(Clone, Copy)]
pub enum File {
    Bytes(&'static [u8]),
    // Bytes in several parts.
    Joined(&'static [&'static [u8]]),
    // So many zero bytes.
    Zeros(usize),
    // A program without heap functions: its words, the first of which lies at 0x10000. Behind them there are 4,096 bytes
    // at 0x200000.
    Plain(&'static [u32]),
    // The same with the flags of the segment of the words, and where the other one lies, with which flags.
    Placed(&'static [u32], [u32; 3]),
    // A program with malloc, free, calloc and realloc: its words, the first of which lies at 0x10010, behind the
    // functions.
    Heap(&'static [u32]),
    // The same with _malloc_r, _free_r, _calloc_r and _realloc_r.
    Reentrant(&'static [u32]),
    // The same with memalign as the fifth function.
    Aligned(&'static [u32]),
    // The file of `hi` with another word at this place, cut off behind so many bytes.
    Changed(usize, u32, usize),
}

// Prints `hi` and exits with 3.
//
//     lui a1, 0x10; addi a1, a1, 36; li a0, 1; li a2, 3; li a7, 64; ecall; li a0, 3; li a7, 93; ecall;
//     .ascii "hi\n\0"
const HI: &[u32] = &[
    0x000105b7, 0x02458593, 0x00100513, 0x00300613, 0x04000893, 0x00000073, 0x00300513, 0x05d00893,
    0x00000073, 0x000a6968,
];

// Programs without heap functions.
static PLAIN_FILES: &[(&str, File)] = &[
    ("hi", Plain(HI)),
    // 7 div 0, 7 rem 0, -2^31 div -1 and -2^31 rem -1, printed as they are stored.
    //
    //     li t0, 7; li t1, 0; div t2, t0, t1; rem t3, t0, t1; lui t0, 0x80000; li t1, -1; div t4, t0, t1;
    //     rem t5, t0, t1; lui s0, 0x200; sw t2, 0(s0); sw t3, 4(s0); sw t4, 8(s0); sw t5, 12(s0); mv a1, s0;
    //     li a0, 1; li a2, 16; li a7, 64; ecall; li a0, 0; li a7, 93; ecall
    (
        "divides",
        Plain(&[
            0x00700293, 0x00000313, 0x0262c3b3, 0x0262ee33, 0x800002b7, 0xfff00313, 0x0262ceb3,
            0x0262ef33, 0x00200437, 0x00742023, 0x01c42223, 0x01d42423, 0x01e42623, 0x00040593,
            0x00100513, 0x01000613, 0x04000893, 0x00000073, 0x00000513, 0x05d00893, 0x00000073,
        ]),
    ),
    // Reads five bytes at a time, and prints them on standard error.
    //
    //     lui s0, 0x200; 1: li a0, 0; mv a1, s0; li a2, 5; li a7, 63; ecall; beqz a0, 2f; mv a2, a0; li a0, 2;
    //     mv a1, s0; li a7, 64; ecall; j 1b; 2: li a7, 93; ecall
    (
        "echoes",
        Plain(&[
            0x00200437, 0x00000513, 0x00040593, 0x00500613, 0x03f00893, 0x00000073, 0x00050e63,
            0x00050613, 0x00200513, 0x00040593, 0x04000893, 0x00000073, 0xfd5ff06f, 0x05d00893,
            0x00000073,
        ]),
    ),
    // Exits with argc.
    //
    //     lw a0, 0(sp); li a7, 93; ecall
    ("a", Plain(&[0x00012503, 0x05d00893, 0x00000073])),
    // Exits with sp modulo 256.
    //
    //     mv a0, sp; li a7, 93; ecall
    ("s", Plain(&[0x00010513, 0x05d00893, 0x00000073])),
    // `jal x0, 0`.
    //
    //     1: j 1b
    ("stays", Plain(&[0x0000006f])),
    // Eight system calls: read from 1, read of no byte, read into the program, read past 2^32, write to 3, write of no
    // byte, write past 2^32, and call 57. Prints the lowest byte of each answer, and exits with -1 by call 94.
    //
    //     lui s0, 0x200; mv s1, s0; li a0, 1; mv a1, s0; li a2, 0; li a7, 63; ecall; sb a0, 0(s1); li a0, 0;
    //     li a2, 0; ecall; sb a0, 1(s1); lui a1, 0x10; li a2, 1; li a0, 0; ecall; sb a0, 2(s1); li a1, -1; li a2, 2;
    //     li a0, 0; ecall; sb a0, 3(s1); li a7, 64; li a0, 3; ecall; sb a0, 4(s1); li a0, 1; li a2, 0; ecall;
    //     sb a0, 5(s1); li a0, 1; li a2, 2; ecall; sb a0, 6(s1); li a7, 57; ecall; sb a0, 7(s1); li a7, 64;
    //     li a0, 1; mv a1, s0; li a2, 8; ecall; li a0, -1; li a7, 94; ecall
    (
        "calls",
        Plain(&[
            0x00200437, 0x00040493, 0x00100513, 0x00040593, 0x00000613, 0x03f00893, 0x00000073,
            0x00a48023, 0x00000513, 0x00000613, 0x00000073, 0x00a480a3, 0x000105b7, 0x00100613,
            0x00000513, 0x00000073, 0x00a48123, 0xfff00593, 0x00200613, 0x00000513, 0x00000073,
            0x00a481a3, 0x04000893, 0x00300513, 0x00000073, 0x00a48223, 0x00100513, 0x00000613,
            0x00000073, 0x00a482a3, 0x00100513, 0x00200613, 0x00000073, 0x00a48323, 0x03900893,
            0x00000073, 0x00a483a3, 0x04000893, 0x00100513, 0x00040593, 0x00800613, 0x00000073,
            0xfff00513, 0x05e00893, 0x00000073,
        ]),
    ),
    // Jumps to a target whose lowest bit is cleared, stores a half of -2, and exits with its second byte as a number
    // without a sign plus its first as one with a sign: 255 - 2.
    //
    //     lui s0, 0x200; lui t0, 0x10; addi t0, t0, 17; jalr t0; li t1, -2; sh t1, 2(s0); lhu t2, 2(s0);
    //     srli t2, t2, 0x8; lb t3, 2(s0); add a0, t2, t3; li a7, 93; ecall
    (
        "extends",
        Plain(&[
            0x00200437, 0x000102b7, 0x01128293, 0x000280e7, 0xffe00313, 0x00641123, 0x00245383,
            0x0083d393, 0x00240e03, 0x01c38533, 0x05d00893, 0x00000073,
        ]),
    ),
    // A write to x0, and an exit with x0.
    //
    //     li zero, 5; add a0, zero, zero; li a7, 93; ecall
    (
        "zero",
        Plain(&[0x00500013, 0x00000533, 0x05d00893, 0x00000073]),
    ),
    //     lw t0, 0(zero)
    ("loads", Plain(&[0x00002283])),
    //     lw t0, 1(zero)
    ("loads1", Plain(&[0x00102283])),
    //     sw t0, 0(zero)
    ("stores", Plain(&[0x00502023])),
    //     sw t0, 1(zero)
    ("stores1", Plain(&[0x005020a3])),
    //     lui s0, 0x10; sw zero, 0(s0)
    ("code", Plain(&[0x00010437, 0x00042023])),
    //     ebreak
    ("breaks", Plain(&[0x00100073])),
    //     jr 2(zero)
    ("jumps2", Plain(&[0x00200067])),
    //     jr 4(zero)
    ("jumps4", Plain(&[0x00400067])),
    //     .word 0
    ("illegal", Plain(&[0x00000000])),
    //     ecall
    ("one", Plain(&[0x00000073])),
    //     li zero, 5
    ("on", Plain(&[0x00500013])),
    // Adds 1 by an instruction that it then writes over, right before it comes there again, so that it adds 16. Exits
    // with the sum.
    //
    //     auipc t0, 0; lw t1, 44(t0); li a0, 0; j 2f; 1: sw t1, 20(t0); 2: addi a0, a0, 1; bnez t2, 3f; li t2, 1; j 1b;
    //     3: li a7, 93; ecall; addi a0, a0, 16
    (
        "patches",
        Placed(
            &[
                0x00000297, 0x02c2a303, 0x00000513, 0x0080006f, 0x0062aa23, 0x00150513, 0x00039663,
                0x00100393, 0xff1ff06f, 0x05d00893, 0x00000073, 0x01050513,
            ],
            [7, 0x200000, 6],
        ),
    ),
    // The same with a fence behind the store.
    //
    //     auipc t0, 0; lw t1, 48(t0); li a0, 0; j 2f; 1: sw t1, 24(t0); fence.i; 2: addi a0, a0, 1; bnez t2, 3f;
    //     li t2, 1; j 1b; 3: li a7, 93; ecall; addi a0, a0, 16
    (
        "fences",
        Placed(
            &[
                0x00000297, 0x0302a303, 0x00000513, 0x00c0006f, 0x0062ac23, 0x0000100f, 0x00150513,
                0x00039663, 0x00100393, 0xfedff06f, 0x05d00893, 0x00000073, 0x01050513,
            ],
            [7, 0x200000, 6],
        ),
    ),
    // Writes a function that adds 1 behind its own code, in the same page, calls it, makes it add 16, and calls it again.
    //
    //     auipc s0, 0; addi t0, s0, 1024; lw t1, 52(s0); lw t2, 56(s0); sw t1, 0(t0); sw t2, 4(t0); li a0, 0;
    //     jalr t0; lw t1, 60(s0); sw t1, 0(t0); jalr t0; li a7, 93; ecall; addi a0, a0, 1; ret; addi a0, a0, 16
    (
        "shares",
        Placed(
            &[
                0x00000417, 0x40040293, 0x03442303, 0x03842383, 0x0062a023, 0x0072a223, 0x00000513,
                0x000280e7, 0x03c42303, 0x0062a023, 0x000280e7, 0x05d00893, 0x00000073, 0x00150513,
                0x00008067, 0x01050513,
            ],
            [5, 0x10400, 7],
        ),
    ),
];

// Programs with heap functions. The first object of at most 16 bytes lies in the slot whose number is the seed's word 1
// modulo 4,096. For the seed 2020 that is the last slot of its miniheap, with nothing mapped behind it.
static HEAP_FILES: &[(&str, File)] = &[
    // Compares the pointers to two objects of size 0, and exits with 2 where they are equal, with 1 otherwise.
    //
    //     li a0, 0; jal malloc; mv t0, a0; li a0, 0; jal malloc; beq t0, a0, 1f; li a0, 1; li a7, 93; ecall;
    //     1: li a0, 2; li a7, 93; ecall
    (
        "empty_objects",
        Heap(&[
            0x00000513, 0xfedff0ef, 0x00050293, 0x00000513, 0xfe1ff0ef, 0x00a28863, 0x00100513,
            0x05d00893, 0x00000073, 0x00200513, 0x05d00893, 0x00000073,
        ]),
    ),
    // Allocates 2^20 bytes and then 2^20 + 1, and exits with 0 where the second answer is 0, with 1 otherwise.
    //
    //     lui a0, 0x100; jal malloc; mv t0, a0; lui a0, 0x100; addi a0, a0, 1; jal malloc; bnez a0, 1f; li a0, 0;
    //     li a7, 93; ecall; 1: li a0, 1; li a7, 93; ecall
    (
        "largest",
        Heap(&[
            0x00100537, 0xfedff0ef, 0x00050293, 0x00100537, 0x00150513, 0xfddff0ef, 0x00051863,
            0x00000513, 0x05d00893, 0x00000073, 0x00100513, 0x05d00893, 0x00000073,
        ]),
    ),
    // Stores a zero byte right behind an object of 16 bytes, frees the object, and prints `o`.
    //
    //     li a0, 16; jal malloc; sb zero, 16(a0); mv a0, a0; jal free; lui s0, 0x200; li t0, 111; sb t0, 0(s0);
    //     mv a1, s0; li a0, 1; li a2, 1; li a7, 64; ecall; li a0, 0; li a7, 93; ecall
    (
        "overflows",
        Heap(&[
            0x01000513, 0xfedff0ef, 0x00050823, 0x00050513, 0xfe5ff0ef, 0x00200437, 0x06f00293,
            0x00540023, 0x00040593, 0x00100513, 0x00100613, 0x04000893, 0x00000073, 0x00000513,
            0x05d00893, 0x00000073,
        ]),
    ),
    // Frees an object of 16 bytes, and stores a zero byte to it.
    //
    //     li a0, 16; jal malloc; mv t0, a0; mv a0, t0; jal free; sb zero, 0(t0); li a0, 0; li a7, 93; ecall
    (
        "stores_freed",
        Heap(&[
            0x01000513, 0xfedff0ef, 0x00050293, 0x00028513, 0xfe5ff0ef, 0x00028023, 0x00000513,
            0x05d00893, 0x00000073,
        ]),
    ),
    // Loads the byte right behind an object of 16 bytes, stores it there again, and frees the object.
    //
    //     li a0, 16; jal malloc; lbu t1, 16(a0); sb t1, 16(a0); mv a0, a0; jal free; li a0, 0; li a7, 93; ecall
    (
        "restores",
        Heap(&[
            0x01000513, 0xfedff0ef, 0x01054303, 0x00650823, 0x00050513, 0xfe1ff0ef, 0x00000513,
            0x05d00893, 0x00000073,
        ]),
    ),
    // Frees an object twice, at once.
    //
    //     li a0, 16; jal malloc; mv t0, a0; mv a0, t0; jal free; mv a0, t0; jal free; li a0, 0; li a7, 93; ecall
    (
        "frees_twice",
        Heap(&[
            0x01000513, 0xfedff0ef, 0x00050293, 0x00028513, 0xfe5ff0ef, 0x00028513, 0xfddff0ef,
            0x00000513, 0x05d00893, 0x00000073,
        ]),
    ),
    // Frees an object twice, with an allocation between.
    //
    //     li a0, 16; jal malloc; mv t0, a0; mv a0, t0; jal free; li a0, 16; jal malloc; mv a0, t0; jal free;
    //     li a0, 0; li a7, 93; ecall
    (
        "frees_again",
        Heap(&[
            0x01000513, 0xfedff0ef, 0x00050293, 0x00028513, 0xfe5ff0ef, 0x01000513, 0xfd9ff0ef,
            0x00028513, 0xfd5ff0ef, 0x00000513, 0x05d00893, 0x00000073,
        ]),
    ),
    // Stores 7 in an object, frees it, allocates once more, and prints the freed object's first byte.
    //
    //     li a0, 16; jal malloc; mv t0, a0; li t1, 7; sb t1, 0(t0); mv a0, t0; jal free; li a0, 16; jal malloc;
    //     lbu t2, 0(t0); lui s0, 0x200; sb t2, 0(s0); mv a1, s0; li a0, 1; li a2, 1; li a7, 64; ecall; li a0, 0;
    //     li a7, 93; ecall
    (
        "dangles",
        Heap(&[
            0x01000513, 0xfedff0ef, 0x00050293, 0x00700313, 0x00628023, 0x00028513, 0xfddff0ef,
            0x01000513, 0xfd1ff0ef, 0x0002c383, 0x00200437, 0x00740023, 0x00040593, 0x00100513,
            0x00100613, 0x04000893, 0x00000073, 0x00000513, 0x05d00893, 0x00000073,
        ]),
    ),
    // Like the one before, with two allocations after the free.
    //
    //     li a0, 16; jal malloc; mv t0, a0; li t1, 7; sb t1, 0(t0); mv a0, t0; jal free; li a0, 16; jal malloc;
    //     li a0, 16; jal malloc; lbu t2, 0(t0); lui s0, 0x200; sb t2, 0(s0); mv a1, s0; li a0, 1; li a2, 1;
    //     li a7, 64; ecall; li a0, 0; li a7, 93; ecall
    (
        "dangles_on",
        Heap(&[
            0x01000513, 0xfedff0ef, 0x00050293, 0x00700313, 0x00628023, 0x00028513, 0xfddff0ef,
            0x01000513, 0xfd1ff0ef, 0x01000513, 0xfc9ff0ef, 0x0002c383, 0x00200437, 0x00740023,
            0x00040593, 0x00100513, 0x00100613, 0x04000893, 0x00000073, 0x00000513, 0x05d00893,
            0x00000073,
        ]),
    ),
    // Prints the four bytes of a pointer to an object of 16 bytes.
    //
    //     li a0, 16; jal malloc; lui s0, 0x200; sw a0, 0(s0); mv a1, s0; li a0, 1; li a2, 4; li a7, 64; ecall;
    //     li a0, 0; li a7, 93; ecall
    (
        "prints_pointer",
        Heap(&[
            0x01000513, 0xfedff0ef, 0x00200437, 0x00a42023, 0x00040593, 0x00100513, 0x00400613,
            0x04000893, 0x00000073, 0x00000513, 0x05d00893, 0x00000073,
        ]),
    ),
    // Prints a byte that has the parity of the place of an object of 16 bytes in its miniheap.
    //
    //     li a0, 16; jal malloc; srli a0, a0, 4; andi a0, a0, 1; lui s0, 0x200; sb a0, 0(s0); mv a1, s0; li a0, 1;
    //     li a2, 1; li a7, 64; ecall; li a0, 0; li a7, 93; ecall
    (
        "prints_parity",
        Heap(&[
            0x01000513, 0xfedff0ef, 0x00455513, 0x00157513, 0x00200437, 0x00a40023, 0x00040593,
            0x00100513, 0x00100613, 0x04000893, 0x00000073, 0x00000513, 0x05d00893, 0x00000073,
        ]),
    ),
    // Stores a pointer in an object, copies it there byte by byte, and prints the `k` that the copy points to. Exits
    // with 1 where the lowest two bits of two pointers differ.
    //
    //     li a0, 16; jal malloc; mv t0, a0; li a0, 16; jal malloc; mv t1, a0; sw t1, 0(t0); xor t2, t0, t1;
    //     andi t2, t2, 3; bnez t2, 1f; lbu t2, 0(t0); sb t2, 8(t0); lbu t2, 1(t0); sb t2, 9(t0); lbu t2, 2(t0);
    //     sb t2, 10(t0); lbu t2, 3(t0); sb t2, 11(t0); lw s1, 8(t0); li t3, 107; sb t3, 0(t1); lbu t4, 0(s1);
    //     lui s0, 0x200; sb t4, 0(s0); mv a1, s0; li a0, 1; li a2, 1; li a7, 64; ecall; li a0, 0; li a7, 93; ecall;
    //     1: li a0, 1; li a7, 93; ecall
    (
        "copies_pointer",
        Heap(&[
            0x01000513, 0xfedff0ef, 0x00050293, 0x01000513, 0xfe1ff0ef, 0x00050313, 0x0062a023,
            0x0062c3b3, 0x0033f393, 0x04039e63, 0x0002c383, 0x00728423, 0x0012c383, 0x007284a3,
            0x0022c383, 0x00728523, 0x0032c383, 0x007285a3, 0x0082a483, 0x06b00e13, 0x01c30023,
            0x0004ce83, 0x00200437, 0x01d40023, 0x00040593, 0x00100513, 0x00100613, 0x04000893,
            0x00000073, 0x00000513, 0x05d00893, 0x00000073, 0x00100513, 0x05d00893, 0x00000073,
        ]),
    ),
    // Stores `hello` and a zero byte in an object of 100 bytes, looks for the zero byte a word at a time, and exits
    // with the offset behind the word that has it.
    //
    //     li a0, 100; jal malloc; mv t0, a0; li t1, 104; sb t1, 0(t0); li t1, 101; sb t1, 1(t0); li t1, 108;
    //     sb t1, 2(t0); li t1, 108; sb t1, 3(t0); li t1, 111; sb t1, 4(t0); sb zero, 5(t0); lui t3, 0x1010;
    //     addi t3, t3, 257; lui t4, 0x80808; addi t4, t4, 128; mv t1, t0; 1: lw t2, 0(t1); sub t5, t2, t3;
    //     not t6, t2; and t5, t5, t6; and t5, t5, t4; addi t1, t1, 4; beqz t5, 1b; sub a0, t1, t0; li a7, 93; ecall
    (
        "finds_zero",
        Heap(&[
            0x06400513, 0xfedff0ef, 0x00050293, 0x06800313, 0x00628023, 0x06500313, 0x006280a3,
            0x06c00313, 0x00628123, 0x06c00313, 0x006281a3, 0x06f00313, 0x00628223, 0x000282a3,
            0x01010e37, 0x101e0e13, 0x80808eb7, 0x080e8e93, 0x00028313, 0x00032383, 0x41c38f33,
            0xfff3cf93, 0x01ff7f33, 0x01df7f33, 0x00430313, 0xfe0f04e3, 0x40530533, 0x05d00893,
            0x00000073,
        ]),
    ),
    // Allocates 2^20 bytes again and again.
    //
    //     1: lui a0, 0x100; jal malloc; j 1b
    ("fills", Heap(&[0x00100537, 0xfedff0ef, 0xff9ff06f])),
    // Breaks the canary behind an object, prints `o`, and `e` on standard error, and allocates 2^20 bytes again and
    // again.
    //
    //     li a0, 16; jal malloc; sb zero, 16(a0); lui s0, 0x200; li t0, 111; sb t0, 0(s0); li t0, 101; sb t0, 1(s0);
    //     mv a1, s0; li a0, 1; li a2, 1; li a7, 64; ecall; addi a1, s0, 1; li a0, 2; ecall; 1: lui a0, 0x100;
    //     jal malloc; j 1b
    (
        "prints_and_fills",
        Heap(&[
            0x01000513, 0xfedff0ef, 0x00050823, 0x00200437, 0x06f00293, 0x00540023, 0x06500293,
            0x005400a3, 0x00040593, 0x00100513, 0x00100613, 0x04000893, 0x00000073, 0x00140593,
            0x00200513, 0x00000073, 0x00100537, 0xfadff0ef, 0xff9ff06f,
        ]),
    ),
    // Copies its input to its output through an object of 1,024 bytes.
    //
    //     li a0, 1024; jal malloc; mv t0, a0; 1: li a0, 0; mv a1, t0; li a2, 1024; li a7, 63; ecall; beqz a0, 2f;
    //     mv a2, a0; li a0, 1; mv a1, t0; li a7, 64; ecall; j 1b; 2: li a0, 0; li a7, 93; ecall
    (
        "copies_input",
        Heap(&[
            0x40000513, 0xfedff0ef, 0x00050293, 0x00000513, 0x00028593, 0x40000613, 0x03f00893,
            0x00000073, 0x00050e63, 0x00050613, 0x00100513, 0x00028593, 0x04000893, 0x00000073,
            0xfd5ff06f, 0x00000513, 0x05d00893, 0x00000073,
        ]),
    ),
    // Prints the 16 bytes of calloc(4, 4), sets the last of them to `a`, makes them 40 by realloc, and prints 64 bytes
    // from the new address on. Exits with 0 where three answers are 0, with 1 otherwise: of calloc(65536, 65536), of a
    // realloc of the freed address, and of a realloc to 2^20 + 1 bytes.
    //
    //     li a0, 4; li a1, 4; jal calloc; mv t0, a0; mv a1, t0; li a0, 1; li a2, 16; li a7, 64; ecall; li t1, 97;
    //     sb t1, 15(t0); lui a0, 0x10; lui a1, 0x10; jal calloc; mv s1, a0; mv a0, t0; li a1, 40; jal realloc;
    //     mv t1, a0; mv a1, t1; li a0, 1; li a2, 64; li a7, 64; ecall; mv a0, t0; li a1, 8; jal realloc;
    //     or s1, s1, a0; mv a0, t1; lui a1, 0x100; addi a1, a1, 1; jal realloc; or s1, s1, a0; snez a0, s1;
    //     li a7, 93; ecall
    (
        "resizes",
        Heap(&[
            0x00400513, 0x00400593, 0xff1ff0ef, 0x00050293, 0x00028593, 0x00100513, 0x01000613,
            0x04000893, 0x00000073, 0x06100313, 0x006287a3, 0x00010537, 0x000105b7, 0xfc5ff0ef,
            0x00050493, 0x00028513, 0x02800593, 0xfb9ff0ef, 0x00050313, 0x00030593, 0x00100513,
            0x04000613, 0x04000893, 0x00000073, 0x00028513, 0x00800593, 0xf95ff0ef, 0x00a4e4b3,
            0x00030513, 0x001005b7, 0x00158593, 0xf81ff0ef, 0x00a4e4b3, 0x00903533, 0x05d00893,
            0x00000073,
        ]),
    ),
    // Frees 0, the inside of an object, an address outside of the heap, and the object twice; allocates by realloc of
    // 0, and frees that.
    //
    //     li a0, 16; jal malloc; mv t0, a0; li a0, 0; jal free; addi a0, t0, 4; jal free; lui a0, 0x200; jal free;
    //     mv a0, t0; jal free; mv a0, t0; jal free; li a0, 0; li a1, 8; jal realloc; mv a0, a0; jal free; li a0, 0;
    //     li a7, 93; ecall
    (
        "counts",
        Heap(&[
            0x01000513, 0xfedff0ef, 0x00050293, 0x00000513, 0xfe5ff0ef, 0x00428513, 0xfddff0ef,
            0x00200537, 0xfd5ff0ef, 0x00028513, 0xfcdff0ef, 0x00028513, 0xfc5ff0ef, 0x00000513,
            0x00800593, 0xfc1ff0ef, 0x00050513, 0xfb1ff0ef, 0x00000513, 0x05d00893, 0x00000073,
        ]),
    ),
    // Prints 16 bytes from an object of 4 on, frees it, and prints them again.
    //
    //     li a0, 4; jal malloc; mv t0, a0; mv a1, t0; li a0, 1; li a2, 16; li a7, 64; ecall; mv a0, t0; jal free;
    //     mv a1, t0; li a0, 1; li a2, 16; li a7, 64; ecall; li a0, 0; li a7, 93; ecall
    (
        "prints_unset",
        Heap(&[
            0x00400513, 0xfedff0ef, 0x00050293, 0x00028593, 0x00100513, 0x01000613, 0x04000893,
            0x00000073, 0x00028513, 0xfd1ff0ef, 0x00028593, 0x00100513, 0x01000613, 0x04000893,
            0x00000073, 0x00000513, 0x05d00893, 0x00000073,
        ]),
    ),
    // Stores a zero byte right behind an object of 16 bytes, and then meets EBREAK.
    //
    //     li a0, 16; jal malloc; sb zero, 16(a0); ebreak
    (
        "breaks_canary",
        Heap(&[0x01000513, 0xfedff0ef, 0x00050823, 0x00100073]),
    ),
    // Allocates 16 bytes, and stores a zero byte in each of the first 100 slots.
    //
    //     li a0, 16; jal malloc; lui t0, 0x40000; addi t1, t0, 1600; 1: sb zero, 0(t0); addi t0, t0, 16;
    //     bne t0, t1, 1b; li a0, 0; li a7, 93; ecall
    (
        "breaks_100",
        Heap(&[
            0x01000513, 0xfedff0ef, 0x400002b7, 0x64028313, 0x00028023, 0x01028293, 0xfe629ce3,
            0x00000513, 0x05d00893, 0x00000073,
        ]),
    ),
    // Allocates 65,536 bytes, stores a zero byte at the start of each of the class's four slots, and allocates once
    // more.
    //
    //     lui a0, 0x10; jal malloc; lui t0, 0x40000; lui t1, 0x10; li t2, 4; 1: sb zero, 0(t0); add t0, t0, t1;
    //     addi t2, t2, -1; bnez t2, 1b; lui a0, 0x10; jal malloc; li a0, 0; li a7, 93; ecall
    (
        "breaks_all",
        Heap(&[
            0x00010537, 0xfedff0ef, 0x400002b7, 0x00010337, 0x00400393, 0x00028023, 0x006282b3,
            0xfff38393, 0xfe039ae3, 0x00010537, 0xfc9ff0ef, 0x00000513, 0x05d00893, 0x00000073,
        ]),
    ),
    // Calls malloc with the return address 0x10013.
    //
    //     li a0, 16; lui ra, 0x10; addi ra, ra, 19; j malloc
    (
        "returns_amiss",
        Heap(&[0x01000513, 0x000100b7, 0x01308093, 0xfe5ff06f]),
    ),
    // Calls malloc with a return address one above that of the next instruction, and exits with 1 where the answer
    // isn't 0.
    //
    //     li a0, 16; auipc ra, 0x0; addi ra, ra, 13; j malloc; snez a0, a0; li a7, 93; ecall
    (
        "returns_odd",
        Heap(&[
            0x01000513, 0x00000097, 0x00d08093, 0xfe5ff06f, 0x00a03533, 0x05d00893, 0x00000073,
        ]),
    ),
    // Stores a zero byte right behind an object of _malloc_r(5, 16), and frees it by _free_r, which leaves its first
    // argument, 7. Makes the object of _calloc_r(5, 4, 4) one of 8 bytes by _realloc_r, and exits with the sum of its
    // second word and 7.
    //
    //     li a0, 5; li a1, 16; jal _malloc_r; mv t0, a0; sb zero, 16(t0); li a0, 7; mv a1, t0; jal _free_r;
    //     mv t0, a0; li a0, 5; li a1, 4; li a2, 4; jal _calloc_r; mv a1, a0; li a0, 5; li a2, 8; jal _realloc_r;
    //     lw t1, 4(a0); add a0, t0, t1; li a7, 93; ecall
    (
        "reentrant",
        Reentrant(&[
            0x00500513, 0x01000593, 0xfe9ff0ef, 0x00050293, 0x00028823, 0x00700513, 0x00028593,
            0xfd9ff0ef, 0x00050293, 0x00500513, 0x00400593, 0x00400613, 0xfc9ff0ef, 0x00050593,
            0x00500513, 0x00800613, 0xfbdff0ef, 0x00452303, 0x00628533, 0x05d00893, 0x00000073,
        ]),
    ),
    // Stores a zero byte 16 bytes before an object of 16 bytes, frees the object, and prints `o`.
    //
    //     li a0, 16; jal malloc; sb zero, -16(a0); mv a0, a0; jal free; lui s0, 0x200; li t0, 111; sb t0, 0(s0);
    //     mv a1, s0; li a0, 1; li a2, 1; li a7, 64; ecall; li a0, 0; li a7, 93; ecall
    (
        "underflows",
        Heap(&[
            0x01000513, 0xfedff0ef, 0xfe050823, 0x00050513, 0xfe5ff0ef, 0x00200437, 0x06f00293,
            0x00540023, 0x00040593, 0x00100513, 0x00100613, 0x04000893, 0x00000073, 0x00000513,
            0x05d00893, 0x00000073,
        ]),
    ),
    // Asks memalign for 100 bytes at a multiple of 64, and exits with 1 where the answer is none.
    //
    //     li a0, 64; li a1, 100; jal memalign; andi t1, a0, 63; bnez t1, 1f; li a0, 0; li a7, 93; ecall;
    //     1: li a0, 1; li a7, 93; ecall
    (
        "aligns",
        Aligned(&[
            0x04000513, 0x06400593, 0xff5ff0ef, 0x03f57313, 0x00031863, 0x00000513, 0x05d00893,
            0x00000073, 0x00100513, 0x05d00893, 0x00000073,
        ]),
    ),
    // The same at a multiple of 24.
    (
        "aligns_to_24",
        Aligned(&[
            0x01800513, 0x06400593, 0xff5ff0ef, 0x03f57313, 0x00031863, 0x00000513, 0x05d00893,
            0x00000073, 0x00100513, 0x05d00893, 0x00000073,
        ]),
    ),
];

static OTHER_FILES: &[(&str, File)] = &[
    ("empty", Bytes(b"")),
    ("magic", Bytes(b"\x7fELF")),
    ("none", Bytes(b"exterm-patches 1\n")),
    ("four", Bytes(b"exterm-patches 1\npad 22324c3d 4\n")),
    ("nine", Bytes(b"exterm-patches 1\npad 22324c3d 9\n")),
    (
        "defers",
        Bytes(b"exterm-patches 1\npad 00000001 1048576\ndefer 22324c3d 239c3651 2\n"),
    ),
    (
        "later",
        Bytes(
            b"exterm-patches 1\npad 22324c3d 5\ndefer 22324c3d 00000000 1\ndefer 22324c3d 239c3651 1\n",
        ),
    ),
    ("pad1", Bytes(b"exterm-patches 1\npad 22324c3d 1\n")),
    ("widest", Bytes(b"exterm-patches 1\npad 22324c3d 1048576\n")),
    (
        "defer1",
        Bytes(b"exterm-patches 1\ndefer 22324c3d 239c3651 1\n"),
    ),
    (
        "defer2",
        Bytes(b"exterm-patches 1\ndefer 22324c3d 239c3651 2\n"),
    ),
    (
        "defer3",
        Bytes(b"exterm-patches 1\ndefer 22324c3d 239c3651 3\n"),
    ),
    (
        "held1",
        Bytes(b"exterm-patches 2\ndefer 22324c3d 230b7249 1\n"),
    ),
    (
        "defers_first",
        Bytes(b"exterm-patches 1\ndefer 22324c3d 230b7249 5\n"),
    ),
    (
        "falls",
        Bytes(b"exterm-patches 1\npad 00000002 1\npad 00000001 1\n"),
    ),
    ("zero_pad", Bytes(b"exterm-patches 1\npad 00000001 0\n")),
    ("cut", Bytes(b"exterm-patches 1\npad 00000001 1")),
    ("head", Bytes(b"exterm-patches 3\n")),
    ("none2", Bytes(b"exterm-patches 2\n")),
    ("four2", Bytes(b"exterm-patches 2\npad 22324c3d 4\n")),
    ("front16", Bytes(b"exterm-patches 2\nfront 22324c3d 16\n")),
    (
        "front32",
        Bytes(b"exterm-patches 2\npad 22324c3d 9\nfront 22324c3d 32\ndefer 22324c3d 239c3651 1\n"),
    ),
    ("front8", Bytes(b"exterm-patches 2\nfront 00000001 8\n")),
    (
        "front_first",
        Bytes(b"exterm-patches 2\nfront 00000001 16\npad 00000001 1\n"),
    ),
    (
        "front_in_1",
        Bytes(b"exterm-patches 1\nfront 00000001 16\n"),
    ),
    // `hi` with another word in its headers, and a file that is one byte too long.
    ("header", Changed(44, 0, 52)),
    ("flags", Changed(36, 1, 156)),
    ("region", Changed(92, 0x50000000, 156)),
    ("before", Changed(60, 0xfffe, 156)),
    ("zeros", Changed(72, 44, 156)),
    ("long", Zeros(268_435_457)),
];

// What stands before the size of the words, twice.
static HEAD: [u32; 17] = [
    0x464c457f, 0x00010101, 0x00000000, 0x00000000, 0x00f30002, 0x00000001, 0x00010000, 0x00000034,
    0x00000000, 0x00000000, 0x00200034, 0x00000002, 0x00000000, 0x00000001, 0x00000074, 0x00010000,
    0x00010000,
];

// What stands behind it where there are heap functions.
static TAIL: [u32; 10] = [
    0x00000005, 0x00000004, 0x00000001, 0x00000000, 0x00200000, 0x00200000, 0x00000000, 0x00001000,
    0x00000006, 0x00000004,
];

// The code of heap functions, the symbols that name them, and their names.
struct Functions {
    breaks: &'static [u32],
    symbols: &'static [u32],
    names: &'static [u8],
}

static MALLOC: Functions = Functions {
    breaks: &[0x00100073, 0x00100073, 0x00100073, 0x00100073],
    symbols: &[
        0, 0, 0, 0, 1, 0x10000, 4, 0xfff10012, 8, 0x10004, 4, 0xfff10012, 13, 0x10008, 4,
        0xfff10012, 20, 0x1000c, 4, 0xfff10012,
    ],
    names: b"\0malloc\0free\0calloc\0realloc\0",
};

static MALLOC_R: Functions = Functions {
    breaks: &[0x00100073, 0x00100073, 0x00100073, 0x00100073],
    symbols: &[
        0, 0, 0, 0, 1, 0x10000, 4, 0xfff10012, 11, 0x10004, 4, 0xfff10012, 19, 0x10008, 4,
        0xfff10012, 29, 0x1000c, 4, 0xfff10012,
    ],
    names: b"\0_malloc_r\0_free_r\0_calloc_r\0_realloc_r\0",
};

static MEMALIGN: Functions = Functions {
    breaks: &[0x00100073, 0x00100073, 0x00100073, 0x00100073, 0x00100073],
    symbols: &[
        0, 0, 0, 0, 1, 0x10000, 4, 0xfff10012, 8, 0x10004, 4, 0xfff10012, 13, 0x10008, 4,
        0xfff10012, 20, 0x1000c, 4, 0xfff10012, 28, 0x10010, 4, 0xfff10012,
    ],
    names: b"\0malloc\0free\0calloc\0realloc\0memalign\0\0\0\0",
};

/// The bytes of the file of a name, where there is one.
pub fn file_of(alloc: Global, name: &str) -> Result<Option<Vec<u8>>, AllocError> {
    match found(name) {
        Some(file) => Ok(Some(bytes_of(alloc, file)?)),
        None => Ok(None),
    }
}

fn found(name: &str) -> Option<File> {
    match plain_file(name) {
        Some(file) => Some(file),
        None => match heap_file(name) {
            Some(file) => Some(file),
            None => match other_file(name) {
                Some(file) => Some(file),
                None => found_in(super::images::IMAGES, name),
            },
        },
    }
}

fn plain_file(name: &str) -> Option<File> {
    found_in(PLAIN_FILES, name)
}

fn heap_file(name: &str) -> Option<File> {
    found_in(HEAP_FILES, name)
}

fn other_file(name: &str) -> Option<File> {
    found_in(OTHER_FILES, name)
}

fn found_in(files: &'static [(&'static str, File)], name: &str) -> Option<File> {
    for (file_name, file) in files {
        if *file_name == name {
            return Some(*file);
        }
    }
    None
}

fn bytes_of(alloc: Global, file: File) -> Result<Vec<u8>, AllocError> {
    match file {
        File::Bytes(bytes) => bytes.to_vec(alloc),
        File::Joined(parts) => joined(alloc, parts),
        File::Zeros(size) => vec![in alloc; 0u8; size],
        File::Plain(words) => plain(alloc, words, [5, 0x200000, 6]),
        File::Placed(words, segments) => plain(alloc, words, segments),
        File::Heap(words) => with_a_heap(alloc, words, &MALLOC),
        File::Reentrant(words) => with_a_heap(alloc, words, &MALLOC_R),
        File::Aligned(words) => with_a_heap(alloc, words, &MEMALIGN),
        File::Changed(at, word, size) => changed(alloc, at, word, size),
    }
}

fn joined(alloc: Global, parts: &[&'static [u8]]) -> Result<Vec<u8>, AllocError> {
    let mut file = Vec::new(alloc);
    for part in parts {
        file.extend_from_slice(part)?;
    }
    Ok(file)
}

fn size_of(words: &[u32]) -> u32 {
    (words.len() % 0x1000_0000) as u32 * 4
}

fn push_all(file: &mut Vec<u8>, words: &[u32]) -> Result<(), AllocError> {
    for word in words {
        file.extend_from_slice(&word.to_le_bytes())?;
    }
    Ok(())
}

fn push_three(
    file: &mut Vec<u8>,
    first: &[u32],
    next: &[u32],
    last: &[u32],
) -> Result<(), AllocError> {
    push_all(file, first)?;
    push_all(file, next)?;
    push_all(file, last)
}

fn plain(alloc: Global, words: &[u32], segments: [u32; 3]) -> Result<Vec<u8>, AllocError> {
    let [runs, from, flags] = segments;
    let size = size_of(words);
    let sizes = [size, size, runs, 4, 1, 0, from, from, 0, 4096, flags, 4];
    let mut file = Vec::new(alloc);
    push_three(&mut file, &HEAD, &sizes, words)?;
    Ok(file)
}

fn changed(alloc: Global, at: usize, word: u32, size: usize) -> Result<Vec<u8>, AllocError> {
    let mut file = plain(alloc, HI, [5, 0x200000, 6])?;
    set_word(&mut file, at, word);
    file.truncate(size);
    Ok(file)
}

fn set_word(file: &mut [u8], at: usize, word: u32) {
    if file.len() >= 4 && at <= file.len() - 4 {
        file[at..at + 4].copy_from_slice(&word.to_le_bytes());
    }
}

fn with_a_heap(alloc: Global, words: &[u32], functions: &Functions) -> Result<Vec<u8>, AllocError> {
    let breaks = size_of(functions.breaks);
    let size = size_of(words).wrapping_add(breaks);
    let from = size.wrapping_add(116);
    let symbols = size_of(functions.symbols);
    let names = (functions.names.len() % 0x1000_0000) as u32;
    let sections = from.wrapping_add(symbols).wrapping_add(names);
    let head = heap_head(breaks, size, sections);
    let mut file = Vec::new(alloc);
    push_three(&mut file, &head, &TAIL, functions.breaks)?;
    push_names(&mut file, words, functions)?;
    push_all(&mut file, &sections_of(from, symbols, names))?;
    Ok(file)
}

fn heap_head(breaks: u32, size: u32, sections: u32) -> [u32; 19] {
    let mut head = [
        0x464c457f, 0x00010101, 0, 0, 0x00f30002, 1, 0x10000, 52, sections, 0, 0x00200034,
        0x00280002, 3, 1, 116, 0x10000, 0x10000, size, size,
    ];
    head[6] = 0x10000u32.wrapping_add(breaks);
    head
}

fn push_names(file: &mut Vec<u8>, words: &[u32], functions: &Functions) -> Result<(), AllocError> {
    push_all(file, words)?;
    push_all(file, functions.symbols)?;
    file.extend_from_slice(functions.names)?;
    Ok(())
}

// The table of sections: none, the symbols, and their names.
fn sections_of(from: u32, symbols: u32, names: u32) -> [u32; 30] {
    let behind = from.wrapping_add(symbols);
    [
        0, 0, 0, 0, 0, 0, 0, 0, 0, 0, 0, 2, 0, 0, from, symbols, 2, 1, 4, 16, 0, 3, 0, 0, behind,
        names, 0, 0, 1, 0,
    ]
}
