// Calls and their answers, as independent/call_table.py prints them; its `--check` compares this file.
use crate::expects::Want;
use crate::expects::Want::{Bytes, Done, No};

// A call and its arguments, in their order.
#[derive(Clone, Copy)]
pub(crate) enum Step {
    Open(usize),
    Generate(usize, u32, u64, u64),
    Arrive(usize, &'static [u8]),
    Send(usize, usize),
    Deliver(usize, usize),
    Drop(usize),
    Read(usize, usize),
}

use Step::{Arrive, Deliver, Drop, Generate, Open, Read, Send};

// A call, and its answers when it is lent one value, one byte of memory too few, and enough of both.
#[derive(Clone, Copy)]
pub(crate) struct Row(pub(crate) Step, pub(crate) &'static [Want]);

pub(crate) const SAMPLES: &[Row] = &[
    Row(Generate(0, 7, 8, 9), &[No(4), No(2), No(4)]),
    Row(Arrive(0, &[]), &[No(4), No(2), No(4)]),
    Row(Send(0, 0), &[No(4), No(2), No(4)]),
    Row(Deliver(0, 0), &[No(4), No(2), No(4)]),
    Row(Drop(0), &[No(6), No(2), No(6)]),
    Row(Read(0, usize::MAX), &[No(4), No(2), No(4)]),
    Row(Open(0), &[No(1), No(1), No(1)]),
    Row(Open(usize::MAX), &[No(1), No(1), No(1)]),
    Row(Open(2), &[No(2), No(2), Done]),
    Row(
        Generate(0, u32::MAX, u64::MAX, u64::MAX),
        &[No(2), No(2), Done],
    ),
    Row(Send(0, 31), &[No(2), No(2), Done]),
    Row(
        Arrive(
            1,
            &[
                3, 1, 0, 24, 0, 0, 0, 0, 0, 0, 0, 8, 0, 0, 0, 7, 0, 0, 0, 0, 0, 0, 0, 9,
            ],
        ),
        &[No(2), No(2), Done],
    ),
    Row(Deliver(31, 1), &[No(2), No(2), Done]),
    Row(Send(1, 3), &[No(2), No(2), Done]),
    Row(Drop(3), &[No(2), No(2), Done]),
    Row(Arrive(0, &[]), &[No(2), No(2), No(9)]),
    Row(Read(1, 43), &[No(2), No(2), No(8)]),
    Row(
        Read(1, 44),
        &[
            No(2),
            No(2),
            Bytes(&[
                3, 2, 0, 44, 0, 0, 0, 0, 0, 0, 0, 8, 0, 0, 0, 7, 0, 0, 0, 0, 0, 0, 0, 9, 255, 255,
                255, 255, 255, 255, 255, 255, 255, 255, 255, 255, 255, 255, 255, 255, 255, 255,
                255, 255,
            ]),
        ],
    ),
    Row(
        Read(0, usize::MAX),
        &[
            No(2),
            No(2),
            Bytes(&[
                3, 1, 0, 24, 255, 255, 255, 255, 255, 255, 255, 255, 255, 255, 255, 255, 255, 255,
                255, 255, 255, 255, 255, 255,
            ]),
        ],
    ),
    Row(Generate(usize::MAX, 7, 8, 9), &[No(2), No(2), No(4)]),
    Row(Arrive(usize::MAX, &[]), &[No(2), No(2), No(4)]),
    Row(Send(usize::MAX, usize::MAX), &[No(2), No(2), No(4)]),
    Row(Send(0, usize::MAX), &[No(2), No(2), No(5)]),
    Row(Deliver(usize::MAX, usize::MAX), &[No(2), No(2), No(5)]),
    Row(Deliver(31, usize::MAX), &[No(2), No(2), No(4)]),
    Row(Drop(usize::MAX), &[No(2), No(2), No(5)]),
    Row(Read(usize::MAX, usize::MAX), &[No(2), No(2), No(4)]),
    Row(Open(3), &[No(2), No(2), Done]),
    Row(Read(0, usize::MAX), &[No(2), No(2), Bytes(&[3, 0, 0, 4])]),
    Row(Read(1, usize::MAX), &[No(2), No(2), Bytes(&[3, 0, 0, 4])]),
    Row(Drop(31), &[No(2), No(2), No(6)]),
    Row(Send(2, 31), &[No(2), No(2), Done]),
];

pub(crate) const OVERLONG: &[Row] = &[
    Row(Open(0), &[No(1), No(1), No(1)]),
    Row(Open(2), &[No(2), No(2), No(3)]),
    Row(Generate(0, 7, 8, 9), &[No(3), No(2), No(3)]),
    Row(Arrive(0, &[]), &[No(3), No(2), No(3)]),
    Row(Send(0, 0), &[No(3), No(2), No(3)]),
    Row(Deliver(0, 0), &[No(3), No(2), No(3)]),
    Row(Drop(0), &[No(3), No(2), No(3)]),
    Row(Read(0, usize::MAX), &[No(3), No(2), No(3)]),
];
