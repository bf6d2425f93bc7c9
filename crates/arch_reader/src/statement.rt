//! The statements of an architecture file.

use file_bricks::{Items, Text};

/// A word `OBJ=D`: an objective's name, and a decimal in units of 10 ^ -12.
#[derive(Debug, Drop)]
pub struct KeyAmount {
    pub key: Text,
    pub amount: i128,
}

/// A word `KEY=N` or `OBJ@N` of a `table` line: a key, and a column or row from 0.
#[derive(Debug, Drop)]
pub struct KeyColumn {
    pub key: Text,
    pub column: u64,
}

/// A statement after the header. Decimals are in units of 10 ^ -12, before any scale.
#[derive(Debug, Drop)]
pub enum Statement {
    /// `objective NAME [scale N] [floor]`
    Objective {
        name: Text,
        scale: Option<u64>,
        floor: bool,
    },
    /// `clock [scale N] [floor]`
    Clock {
        scale: Option<u64>,
        floor: bool,
    },
    /// `resource NAME [OBJ=D]..`
    Resource {
        name: Text,
        weights: Items<KeyAmount>,
    },
    /// `link NAME A -- B [OBJ=D]..`, or `->` for a one-way link
    Link {
        name: Text,
        a: Text,
        b: Text,
        two_way: bool,
        weights: Items<KeyAmount>,
    },
    /// `traffic LINK OBJ=D..`
    Traffic {
        link: Text,
        weights: Items<KeyAmount>,
    },
    /// `task NAME`
    Task {
        name: Text,
    },
    /// `message NAME SENDER -> RECEIVER..`
    Message {
        name: Text,
        sender: Text,
        receivers: Items<Text>,
    },
    /// `merge NAME MESSAGE..`
    Merge {
        name: Text,
        messages: Items<Text>,
    },
    /// `map TASK RESOURCE [time=D] [OBJ=D]..`
    Map {
        task: Text,
        resource: Text,
        time: Option<i128>,
        weights: Items<KeyAmount>,
    },
    /// `table NAME INDEX RESOURCE [KEY=N].. [OBJ@N]..`
    Table {
        name: Text,
        index: u64,
        resource: Text,
        keys: Items<KeyColumn>,
        weights_at: Items<KeyColumn>,
    },
    /// `quantity MESSAGE D`
    Quantity {
        message: Text,
        amount: i128,
    },
    /// `quantity table NAME INDEX COLUMN [rows=N]`
    QuantityTable {
        name: Text,
        index: u64,
        column: u64,
        rows: Option<u64>,
    },
    /// `hops N` for all messages, or `hops MESSAGE N`
    Hops {
        message: Option<Text>,
        limit: u64,
    },
    /// `delay D` for all messages, or `delay MESSAGE D`
    Delay {
        message: Option<Text>,
        amount: i128,
    },
    /// `deadline TASK D`
    Deadline {
        task: Text,
        at: i128,
    },
}

/// A statement, and the number of its line.
#[derive(Debug, Drop)]
pub struct ArchLine {
    pub line: u64,
    pub statement: Statement,
}
