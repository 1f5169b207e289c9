//! The metrics of a farm as a text.

ghost use Rattle.std.specs.Prelude.{◌≡◌, ◌++◌, IfOk, OnOk};
ghost use Rattle.std.specs.List.{flat_map};
ghost use Rattle.farm_page.specs.Metric as rows;
ghost use Rattle.farm_page.specs.Metrics as spec;

use crate::health::Moment;
use crate::measured::{FunctionNumber, HostNumber, farm_value, function_value, host_value};
use crate::metric::{METRICS, Metric, Value};
use crate::view::{EndView, FarmView, FunctionView, HostView};
use crate::writing::{put_label, put_number, put_text};
use std::alloc::{AllocError, Global};

/// Adds a line that tells something of a metric.
fn put_told(out: &mut Vec<u8>, lead: &str, metric: &Metric, words: &str) -> Result<(), AllocError>
    ensures { OnOk result (out.new.items ≡ out.old.items ++ spec.told lead.now (rows.metric_view metric.now) words.now) }
{
    put_text(out, lead)?;
    put_text(out, metric.name)?;
    put_text(out, " ")?;
    put_text(out, words)?;
    put_text(out, "\n")
}

/// Adds what a metric means, and its type.
fn put_head(out: &mut Vec<u8>, metric: &Metric) -> Result<(), AllocError>
    ensures { OnOk result (out.new.items ≡ out.old.items ++ spec.head (rows.metric_view metric.now)) }
{
    put_told(out, "# HELP ", metric, metric.help)?;
    put_told(out, "# TYPE ", metric, metric.kind.name())
}

/// Adds a sample with its label: that of the function, host or cause of this name.
fn put_labelled(
    out: &mut Vec<u8>,
    metric: &Metric,
    named: &str,
    value: u64,
) -> Result<(), AllocError>
    ensures { OnOk result (out.new.items ≡ out.old.items ++ spec.labelled (rows.metric_view metric.now) named.now value) }
{
    put_text(out, metric.name)?;
    put_text(out, "{")?;
    put_text(out, metric.value.label())?;
    put_text(out, "=\"")?;
    put_label(out, named.as_bytes())?;
    put_text(out, "\"} ")?;
    put_number(out, value)?;
    put_text(out, "\n")
}

/// Adds a sample with its label, if its number is known.
fn put_labelled_if(
    out: &mut Vec<u8>,
    metric: &Metric,
    named: &str,
    value: Option<u64>,
) -> Result<(), AllocError>
    ensures { OnOk result (out.new.items ≡ out.old.items ++ spec.labelled_if (rows.metric_view metric.now) named.now value) }
{
    match value {
        Some(value) => put_labelled(out, metric, named, value),
        None => Ok(()),
    }
}

/// Adds a metric of the farm, if it has a value.
fn put_of_farm(out: &mut Vec<u8>, metric: &Metric, value: Option<u64>) -> Result<(), AllocError>
    ensures { OnOk result (out.new.items ≡ out.old.items ++ spec.farm_family (rows.metric_view metric.now) value) }
{
    let Some(value) = value else {
        return Ok(());
    };
    put_head(out, metric)?;
    put_text(out, metric.name)?;
    put_text(out, " ")?;
    put_number(out, value)?;
    put_text(out, "\n")
}

/// Adds a metric of each function.
fn put_of_functions(
    out: &mut Vec<u8>,
    metric: &Metric,
    number: FunctionNumber,
    functions: &[FunctionView],
) -> Result<(), AllocError>
    ensures { OnOk result (out.new.items
        ≡ out.old.items ++ spec.function_family (rows.metric_view metric.now) number functions.now) }
{
    put_head(out, metric)?;
    for function in functions {
        let value = function_value(function, number);
        put_labelled_if(out, metric, function.name.as_str(), value)?;
    }
    Ok(())
}

/// Adds a metric of each host.
fn put_of_hosts(
    out: &mut Vec<u8>,
    metric: &Metric,
    number: HostNumber,
    hosts: &[HostView],
) -> Result<(), AllocError>
    ensures { OnOk result (out.new.items ≡ out.old.items ++ spec.host_family (rows.metric_view metric.now) number hosts.now) }
{
    put_head(out, metric)?;
    for host in hosts {
        let value = host_value(host, number);
        put_labelled_if(out, metric, host.name.as_str(), value)?;
    }
    Ok(())
}

/// Adds how many workers ended, by cause.
fn put_ends(out: &mut Vec<u8>, metric: &Metric, ends: &[EndView]) -> Result<(), AllocError>
    ensures { OnOk result (out.new.items ≡ out.old.items ++ spec.ends_family (rows.metric_view metric.now) ends.now) }
{
    put_head(out, metric)?;
    for end in ends {
        put_labelled(out, metric, end.cause.as_str(), end.count)?;
    }
    Ok(())
}

/// Adds a metric with all its samples.
fn put_metric(
    out: &mut Vec<u8>,
    view: &FarmView,
    moment: Moment,
    metric: &Metric,
) -> Result<(), AllocError>
    ensures { OnOk result (out.new.items ≡ out.old.items ++ spec.family view.now moment (rows.metric_view metric.now)) }
{
    match metric.value {
        Value::Farm(number) => put_of_farm(out, metric, farm_value(view, moment, number)),
        Value::Function(number) => put_of_functions(out, metric, number, &view.functions),
        Value::Host(number) => put_of_hosts(out, metric, number, &view.hosts),
        Value::Cause => put_ends(out, metric, &view.ends),
    }
}

/// Adds metrics.
fn put_metrics(
    out: &mut Vec<u8>,
    view: &FarmView,
    moment: Moment,
    metrics: &[Metric],
) -> Result<(), AllocError>
    ensures { OnOk result (out.new.items ≡ out.old.items ++ flat_map (spec.family view.now moment) (rows.metrics_view metrics.now)) }
{
    for metric in metrics {
        put_metric(out, view, moment, metric)?;
    }
    Ok(())
}

/// The metrics of a farm at a moment in the text format of Prometheus, version 0.0.4: each metric with what it means and its type, and then
/// its samples, those of functions, hosts and causes with a label. What is not known has no sample. The only error is out of memory.
pub fn metrics_text(alloc: Global, view: &FarmView, moment: Moment) -> Result<Vec<u8>, AllocError>
    ensures { IfOk result (λ text. text.items ≡ spec.metrics_text view.now moment) }
{
    let mut out = Vec::new(alloc);
    put_metrics(&mut out, view, moment, &METRICS)?;
    Ok(out)
}
