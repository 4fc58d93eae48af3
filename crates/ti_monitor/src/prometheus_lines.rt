//! The lines of Prometheus' text format.

use crate::texts::{push, push_escaped, push_number, push_seconds};
use itoa::Buffer;
use std::alloc::AllocError;

/// The types of metrics.
pub(crate) const COUNTER: &str = "counter";

pub(crate) const GAUGE: &str = "gauge";

pub(crate) const HISTOGRAM: &str = "histogram";

/// What a value is.
#[derive(Clone, Copy)]
pub(crate) enum Unit {
    Count,
    /// Nanoseconds, which are written as seconds.
    Nanos,
}

/// Samples that one label tells apart.
#[derive(Clone, Copy)]
pub(crate) struct Series<'a> {
    /// The name of the metric, without `cebdyraq_`.
    pub(crate) name: &'a str,
    /// What follows the name, as `_bucket`.
    pub(crate) suffix: &'a str,
    /// The name of the label.
    pub(crate) key: &'a str,
    pub(crate) unit: Unit,
}

/// Appends a value. The error is lack of memory.
fn push_value(out: &mut Vec<u8>, unit: Unit, value: u64) -> Result<(), AllocError>
    ensures { OnOk result (out.new.items ≡ out.old.items ++ shown unit value) }
{
    match unit {
        Unit::Count => push_number(out, value),
        Unit::Nanos => push_seconds(out, value),
    }
}

/// Appends a line about a metric. The error is lack of memory.
fn push_about(out: &mut Vec<u8>, begin: &[u8], name: &str, text: &str) -> Result<(), AllocError>
    ensures { OnOk result (out.new.items ≡ out.old.items ++ line (about_line begin.now name.now text.now)) }
{
    push(out, begin)?;
    push(out, name.as_bytes())?;
    push(out, b" ")?;
    push(out, text.as_bytes())?;
    push(out, b"\n")
}

/// Appends what a metric is, in two lines. The error is lack of memory.
pub(crate) fn push_head(
    out: &mut Vec<u8>,
    name: &str,
    kind: &str,
    help: &str,
) -> Result<(), AllocError>
    ensures { OnOk result (out.new.items ≡ out.old.items ++ text_of (head_lines name.now kind.now help.now)) }
{
    push_about(out, b"# HELP cebdyraq_", name, help)?;
    push_about(out, b"# TYPE cebdyraq_", name, kind)
}

/// Appends the name of a sample. The error is lack of memory.
fn push_name(out: &mut Vec<u8>, name: &str, suffix: &str) -> Result<(), AllocError>
    ensures { OnOk result (out.new.items ≡ out.old.items ++ full_name name.now suffix.now) }
{
    push(out, b"cebdyraq_")?;
    push(out, name.as_bytes())?;
    push(out, suffix.as_bytes())
}

/// Appends a label. The error is lack of memory.
fn push_label(out: &mut Vec<u8>, key: &str, label: &str) -> Result<(), AllocError>
    ensures { OnOk result (out.new.items ≡ out.old.items ++ label_text key.now label.now) }
{
    push(out, b"{")?;
    push(out, key.as_bytes())?;
    push(out, b"=\"")?;
    push_escaped(out, label)?;
    push(out, b"\"}")
}

/// Appends a sample that has no label. The error is lack of memory.
pub(crate) fn push_plain(
    out: &mut Vec<u8>,
    name: &str,
    suffix: &str,
    unit: Unit,
    value: u64,
) -> Result<(), AllocError>
    ensures { OnOk result (out.new.items ≡ out.old.items ++ line (plain_line name.now suffix.now (shown unit value))) }
{
    push_name(out, name, suffix)?;
    push(out, b" ")?;
    push_value(out, unit, value)?;
    push(out, b"\n")
}

/// Appends a metric of one sample without a label. The error is lack of memory.
pub(crate) fn push_single(
    out: &mut Vec<u8>,
    name: &str,
    kind: &str,
    help: &str,
    unit: Unit,
    value: u64,
) -> Result<(), AllocError>
    ensures { OnOk result (out.new.items ≡ out.old.items ++ text_of (single name.now kind.now help.now (shown unit value))) }
{
    push_head(out, name, kind, help)?;
    push_plain(out, name, "", unit, value)
}

/// Appends a sample with its label. The error is lack of memory.
pub(crate) fn push_labelled(
    out: &mut Vec<u8>,
    series: &Series<'_>,
    label: &str,
    value: u64,
) -> Result<(), AllocError>
    ensures { OnOk result (out.new.items ≡ out.old.items ++ line (labelled_line (series_of series.now) label.now value)) }
{
    push_name(out, series.name, series.suffix)?;
    push_label(out, series.key, label)?;
    push(out, b" ")?;
    push_value(out, series.unit, value)?;
    push(out, b"\n")
}

/// Appends a sample for each of these labels. The error is lack of memory.
pub(crate) fn push_each(
    out: &mut Vec<u8>,
    series: &Series<'_>,
    labels: &[&str],
    values: &[u64],
) -> Result<(), AllocError>
    requires { length labels.now ≡ length values.now }
    ensures { OnOk result (out.new.items ≡ out.old.items ++ text_of (labelled_lines (series_of series.now) (map (λ s. s.now) labels.now) values.now)) }
{
    for place in 0..labels.len() {
        push_labelled(out, series, labels[place], values[place])?;
    }
    Ok(())
}

/// Appends a sample for each of these codes. The error is lack of memory.
pub(crate) fn push_codes(
    out: &mut Vec<u8>,
    series: &Series<'_>,
    codes: &[(u16, u64)],
) -> Result<(), AllocError>
    ensures { OnOk result (out.new.items ≡ out.old.items ++ text_of (map (code_line (series_of series.now)) codes.now)) }
{
    for row in codes {
        let mut buffer = Buffer::new();
        push_labelled(out, series, buffer.format(row.0), row.1)?;
    }
    Ok(())
}

ghost use Rattle.std.specs.Prelude.{◌≡◌, ◌++◌, OnOk, length, map};
ghost use Rattle.ti_monitor.specs.Texts.{line, text_of};
ghost use Rattle.ti_monitor.specs.Exposition.{about_line, code_line, full_name, head_lines, label_text, labelled_line, labelled_lines, plain_line, series_of, shown, single};
