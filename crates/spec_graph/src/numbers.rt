//! The numbers of a specification's items, and what stands in its lists.

/// The number of a task.
#[derive(Clone, Copy, Debug, PartialEq, Eq, PartialOrd, Ord, Hash)]
pub struct TaskNo(pub u32);

/// The number of a message.
#[derive(Clone, Copy, Debug, PartialEq, Eq, PartialOrd, Ord, Hash)]
pub struct MsgNo(pub u32);

/// The number of a resource.
#[derive(Clone, Copy, Debug, PartialEq, Eq, PartialOrd, Ord, Hash)]
pub struct ResNo(pub u32);

/// The number of a link.
#[derive(Clone, Copy, Debug, PartialEq, Eq, PartialOrd, Ord, Hash)]
pub struct LinkNo(pub u32);

/// The number of an arc.
#[derive(Clone, Copy, Debug, PartialEq, Eq, PartialOrd, Ord, Hash)]
pub struct ArcNo(pub u32);

/// The number of an option.
#[derive(Clone, Copy, Debug, PartialEq, Eq, PartialOrd, Ord, Hash)]
pub struct OptNo(pub u32);

/// One direction of a link.
#[derive(Clone, Copy, Debug, PartialEq, Eq)]
pub struct Arc {
    pub link: LinkNo,
    pub tail: ResNo,
    pub head: ResNo,
}

/// An option: a task may run on a resource, in a time.
#[derive(Clone, Copy, Debug, PartialEq, Eq)]
pub struct Choice {
    pub task: TaskNo,
    pub resource: ResNo,
    pub time: u64,
}
