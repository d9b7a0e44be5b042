//! Which side ties a binding to its instance.

/// Which side keeps the rules that tie a binding to its instance (this project's choice). Each side has rules of its own,
/// those of `osb_binding`.
#[derive(Clone, Copy, Debug, PartialEq, Eq, Hash)]
pub struct Rules {
    /// The platform creates a binding only while it records the instance `ready`, and removes an instance only while
    /// it records each binding `gone`, or not at all.
    pub platform: bool,
    /// The broker begins no Bind unless the instance is there, and nothing of an instance while it holds a binding. It
    /// answers then as if work were pending.
    pub broker: bool,
}
