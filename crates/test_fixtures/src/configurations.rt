//! Configurations of lines, in the form that bsc_config reads.

/// Two terminals that are polled in turn: terminal 0 is polled by A and selected by a, terminal 1
/// is polled by B and selected by b. The settings are the defaults.
pub const TWO_TERMINALS: &str = "version = 1
poll_list = [0, 1]

[[terminals]]
poll = \"A\"
select = \"a\"

[[terminals]]
poll = \"B\"
select = \"b\"
";

/// A configuration of the same two terminals, but terminal 0 is also selected by c.
pub const THREE_ADDRESSES: &str = "version = 2
poll_list = [0, 1]

[[terminals]]
poll = \"A\"
select = [\"a\", \"c\"]

[[terminals]]
poll = \"B\"
select = [\"b\"]
";
