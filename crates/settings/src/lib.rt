//! The register as a case of the protocol: what its bytes read as there, and which groups a transaction names.

#![tactic(auto)]

ghost use Rattle.settings.specs.Named.{NamedGroups};

/// A transaction names a group, as the protocol has it, exactly where one of its operations is at a key of the group.
pub fn named_groups_are_touched() -> u8
    ensures { NamedGroups }
{
    0
}
