//! How Prometheus' text format, version 0.0.4, is written.
ghost use Rattle.std.specs.Prelude.{◌≡◌, ◌++◌, OnOk, map};
ghost use Rattle.service_status.specs.Exposition as spec;
ghost use Rattle.service_status.specs.Exposition.{escaped_byte, escaped_value, label_text, labels_text, sample_line, help_line, type_line};
ghost use Rattle.service_status.specs.Metrics.{name_of, help_of, kind_of};
ghost use Rattle.service_status.specs.Labels.{as_label, as_labels, behind};
ghost use Rattle.service_status.specs.Samples.{alone, by_end, lines_of};

use crate::metrics::Metric;
use std::alloc::AllocError;
use text_fields::write_decimal;

/// A label of a sample.
#[derive(Clone, Copy)]
pub(crate) struct Label<'a> {
    pub(crate) name: &'static str,
    pub(crate) value: &'a [u8],
}

/// Appends a byte of a label's value.
fn push_byte(out: &mut Vec<u8>, byte: u8) -> Result<(), AllocError>
    ensures { OnOk result (out.new.items ≡ out.old.items ++ escaped_byte byte) }
{
    match byte {
        b'\\' => out.extend_from_slice(b"\\\\"),
        b'"' => out.extend_from_slice(b"\\\""),
        b'\n' => out.extend_from_slice(b"\\n"),
        byte => out.extend_from_slice(&[byte]),
    }
}

/// Appends a label's value.
fn push_escaped(out: &mut Vec<u8>, text: &[u8]) -> Result<(), AllocError>
    ensures { OnOk result (out.new.items ≡ out.old.items ++ escaped_value text.now) }
{
    let mut left = text;
    while let [byte, rest @ ..] = left {
        push_byte(out, *byte)?;
        left = rest;
    }
    Ok(())
}

/// Appends a label with its value in quotes.
fn push_label(out: &mut Vec<u8>, label: Label<'_>) -> Result<(), AllocError>
    ensures { OnOk result (out.new.items ≡ out.old.items ++ label_text (as_label label.entry)) }
{
    out.extend_from_slice(label.name.as_bytes())?;
    out.extend_from_slice(b"=\"")?;
    push_escaped(out, label.value)?;
    out.extend_from_slice(b"\"")
}

/// Appends labels with a comma behind each.
fn push_first(out: &mut Vec<u8>, labels: &[Label<'_>]) -> Result<(), AllocError>
    ensures { OnOk result (out.new.items ≡ out.old.items ++ spec.first_labels (as_labels labels.now)) }
{
    let mut left = labels;
    while let [label, rest @ ..] = left {
        push_label(out, *label)?;
        out.extend_from_slice(b",")?;
        left = rest;
    }
    Ok(())
}

/// Appends labels in braces, of which the last stands alone here.
fn push_labels(out: &mut Vec<u8>, labels: &[Label<'_>], last: Label<'_>) -> Result<(), AllocError>
    ensures { OnOk result (out.new.items ≡ out.old.items ++ labels_text (behind labels.now last.entry)) }
{
    out.extend_from_slice(b"{")?;
    push_first(out, labels)?;
    push_label(out, last)?;
    out.extend_from_slice(b"}")
}

/// Appends the value of a sample, and ends its line.
fn push_value(out: &mut Vec<u8>, value: u64) -> Result<(), AllocError>
    ensures { OnOk result (out.new.items ≡ out.old.items ++ spec.value_text value) }
{
    out.extend_from_slice(b" ")?;
    write_decimal(out, value)?;
    out.extend_from_slice(b"\n")
}

/// Appends a sample without labels.
pub(crate) fn push_alone(out: &mut Vec<u8>, metric: Metric, value: u64) -> Result<(), AllocError>
    ensures { OnOk result (out.new.items ≡ out.old.items ++ lines_of metric (alone value)) }
{
    out.extend_from_slice(metric.name().as_bytes())?;
    push_value(out, value)
}

/// Appends a sample with these labels, of which the last stands alone here.
pub(crate) fn push_sample(
    out: &mut Vec<u8>,
    metric: Metric,
    labels: &[Label<'_>],
    last: Label<'_>,
    value: u64,
) -> Result<(), AllocError>
    ensures { OnOk result (out.new.items ≡ out.old.items
        ++ sample_line (name_of metric) (behind labels.now last.entry, value)) }
{
    out.extend_from_slice(metric.name().as_bytes())?;
    push_labels(out, labels, last)?;
    push_value(out, value)
}

/// Appends a sample for each row, with its word as the last label.
pub(crate) fn push_rows(
    out: &mut Vec<u8>,
    metric: Metric,
    labels: &[Label<'_>],
    name: &'static str,
    rows: &[(&'static str, u64)],
) -> Result<(), AllocError>
    ensures { OnOk result (out.new.items ≡ out.old.items
        ++ lines_of metric (by_end (as_labels labels.now) name.now (map (λ row. (row.0.now, row.1)) rows.now))) }
{
    let mut left = rows;
    while let [row, rest @ ..] = left {
        let last = Label {
            name,
            value: row.0.as_bytes(),
        };
        push_sample(out, metric, labels, last, row.1)?;
        left = rest;
    }
    Ok(())
}

/// Appends the line that says what a metric counts.
pub(crate) fn push_help(out: &mut Vec<u8>, metric: Metric) -> Result<(), AllocError>
    ensures { OnOk result (out.new.items ≡ out.old.items ++ help_line (name_of metric) (help_of metric)) }
{
    out.extend_from_slice(b"# HELP ")?;
    out.extend_from_slice(metric.name().as_bytes())?;
    out.extend_from_slice(b" ")?;
    out.extend_from_slice(metric.help().as_bytes())?;
    out.extend_from_slice(b"\n")
}

/// Appends the line that says of which kind a metric is.
pub(crate) fn push_type(out: &mut Vec<u8>, metric: Metric) -> Result<(), AllocError>
    ensures { OnOk result (out.new.items ≡ out.old.items ++ type_line (name_of metric) (kind_of metric)) }
{
    out.extend_from_slice(b"# TYPE ")?;
    out.extend_from_slice(metric.name().as_bytes())?;
    out.extend_from_slice(b" ")?;
    out.extend_from_slice(metric.kind().as_bytes())?;
    out.extend_from_slice(b"\n")
}
