//! Lines of text.
ghost use Rattle.std.specs.Prelude.{◌≡◌, ◌++◌, ℕ, OnOk, List, if◌then◌else◌, codes, [], ◌∷◌};
ghost use Rattle.model_gen.specs.Texts.{feature_name, group_text, line, constraint_line, wish_line, tabs_of};
ghost use Rattle.std.specs.Fmt.{decimal};

use diag_base::Bytes;
use feature_tree::GroupKind;
use std::alloc::{AllocError, Global};

/// A number in decimal.
fn push_number(alloc: Global, text: &mut Bytes, number: u32) -> Result<(), AllocError>
    ensures { OnOk result (text.new ≡ text.old ++ decimal number) }
{
    let digits = format!(in alloc; "{number}")?;
    text.extend_from_slice(digits.as_str().as_bytes())
}

/// The name of a feature.
fn push_name(alloc: Global, text: &mut Bytes, feature: u32) -> Result<(), AllocError>
    ensures { OnOk result (text.new ≡ text.old ++ feature_name feature) }
{
    text.extend_from_slice(b"F")?;
    push_number(alloc, text, feature)
}

/// So many tabs.
fn push_tabs(text: &mut Bytes, count: u32) -> Result<(), AllocError>
    ensures { OnOk result (text.new ≡ text.old ++ tabs_of count) }
{
    'tabs: for _ in 0..count {
        text.push(b'\t')?;
    }
    Ok(())
}

/// The line of a feature.
pub(crate) fn push_feature(
    alloc: Global,
    text: &mut Bytes,
    tabs: u32,
    feature: u32,
) -> Result<(), AllocError>
    ensures { OnOk result (text.new ≡ text.old ++ line tabs (feature_name feature)) }
{
    push_tabs(text, tabs)?;
    push_name(alloc, text, feature)?;
    text.push(b'\n')?;
    Ok(())
}

/// What a group of so many children is called.
fn push_group_text(
    alloc: Global,
    text: &mut Bytes,
    kind: GroupKind,
    count: u32,
) -> Result<(), AllocError>
    ensures { OnOk result (text.new ≡ text.old ++ group_text kind count) }
{
    match kind {
        GroupKind::Mandatory => text.extend_from_slice(b"mandatory"),
        GroupKind::Optional => text.extend_from_slice(b"optional"),
        GroupKind::Or => text.extend_from_slice(b"or"),
        GroupKind::Alternative => text.extend_from_slice(b"alternative"),
        GroupKind::Range => {
            text.extend_from_slice(b"[1..")?;
            push_number(alloc, text, count)?;
            text.extend_from_slice(b"]")
        }
    }
}

/// The line of a group.
pub(crate) fn push_group(
    alloc: Global,
    text: &mut Bytes,
    tabs: u32,
    kind: GroupKind,
    count: u32,
) -> Result<(), AllocError>
    ensures { OnOk result (text.new ≡ text.old ++ line tabs (group_text kind count)) }
{
    push_tabs(text, tabs)?;
    push_group_text(alloc, text, kind, count)?;
    text.push(b'\n')?;
    Ok(())
}

/// The line of a constraint: every product with the first feature has the second.
pub(crate) fn push_constraint(
    alloc: Global,
    text: &mut Bytes,
    feature: u32,
    needed: u32,
) -> Result<(), AllocError>
    ensures { OnOk result (text.new ≡ text.old ++ constraint_line (record { feature = feature; needed = needed })) }
{
    text.push(b'\t')?;
    push_name(alloc, text, feature)?;
    text.extend_from_slice(b" => ")?;
    push_name(alloc, text, needed)?;
    text.push(b'\n')?;
    Ok(())
}

/// The mark of what is unwanted.
fn push_mark(text: &mut Bytes, unwanted: bool) -> Result<(), AllocError>
    ensures { OnOk result (text.new ≡ text.old ++ (if unwanted then codes "!" else [])) }
{
    if unwanted {
        text.push(b'!')?;
    }
    Ok(())
}

/// The line of a requirement.
pub(crate) fn push_wish(
    alloc: Global,
    text: &mut Bytes,
    feature: u32,
    unwanted: bool,
) -> Result<(), AllocError>
    ensures { OnOk result (text.new ≡ text.old ++ wish_line (record { feature = feature; unwanted = unwanted })) }
{
    push_mark(text, unwanted)?;
    push_name(alloc, text, feature)?;
    text.push(b'\n')?;
    Ok(())
}
