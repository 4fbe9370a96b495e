//! What a server that greets says of its index, by the names of the Elasticsearch reference.

use crate::page::quoted;
use crate::stats::{CopyStats, Stats};
use doc::mapping::Field;
use doc::{Kind, Mapping, Subject};
use std::alloc::{AllocError, Global};

/// What a request asks to know of the service.
#[derive(Clone, Copy, Debug, PartialEq, Eq)]
pub(crate) enum Report {
    Index,
    Mapping,
    Settings,
    Stats,
    Health,
    HealthLine,
    IndexLine,
    Metrics,
}

/// What is reported of an index.
pub(crate) fn report_text(
    alloc: Global,
    what: Report,
    index: &str,
    mapping: &Mapping,
    stats: &Stats,
) -> Result<String, AllocError> {
    let name = quoted(alloc, index)?;
    let name = name.as_str();
    match what {
        Report::Index => index_text(alloc, name, mapping, stats),
        Report::Mapping => {
            let mappings = mapping_text(alloc, mapping)?;
            let mappings = mappings.as_str();
            format!(in alloc; "{{{name}:{{\"mappings\":{mappings}}}}}")
        }
        Report::Settings => {
            let settings = settings_text(alloc, name, stats)?;
            let settings = settings.as_str();
            format!(in alloc; "{{{name}:{{\"settings\":{settings}}}}}")
        }
        Report::Stats => stats_text(alloc, name, stats),
        Report::Health => health_text(alloc, stats),
        Report::HealthLine => health_line(alloc, stats),
        Report::IndexLine => index_line(alloc, index, stats),
        Report::Metrics => metrics_text(alloc, name, stats),
    }
}

/// The health of an index: green if all its copies are in sync, yellow if a copy leads, or red.
fn health_of(stats: &Stats) -> &'static str {
    if !stats
        .served
        .iter()
        .any(|it: &CopyStats| it.is_primary && it.is_open)
    {
        "red"
    } else if active(stats) < stats.copies as u64 {
        "yellow"
    } else {
        "green"
    }
}

/// How many copies are in sync and open.
fn active(stats: &Stats) -> u64 {
    let mut count: u64 = 0;
    for it in &stats.served {
        if it.is_in_sync && it.is_open {
            count = count.saturating_add(1);
        }
    }
    count
}

fn missing(stats: &Stats) -> u64 {
    (stats.copies as u64).saturating_sub(active(stats))
}

fn leads(stats: &Stats) -> u64 {
    if health_of(stats) == "red" { 0 } else { 1 }
}

/// The share of copies that are active, in percent.
fn percent(stats: &Stats) -> u64 {
    active(stats).saturating_mul(100) / (stats.copies as u64).max(1)
}

fn index_text(
    alloc: Global,
    name: &str,
    mapping: &Mapping,
    stats: &Stats,
) -> Result<String, AllocError> {
    let mappings = mapping_text(alloc, mapping)?;
    let mappings = mappings.as_str();
    let settings = settings_text(alloc, name, stats)?;
    let settings = settings.as_str();
    format!(in alloc;
        "{{{name}:{{\"aliases\":{{}},\"mappings\":{mappings},\"settings\":{settings}}}}}"
    )
}

fn settings_text(alloc: Global, name: &str, stats: &Stats) -> Result<String, AllocError> {
    let replicas = stats.copies.saturating_sub(1);
    format!(in alloc;
        "{{\"index\":{{\"number_of_replicas\":\"{replicas}\",\"number_of_shards\":\"1\",\"provided_name\":{name},\"uuid\":\"_na_\"}}}}"
    )
}

fn mapping_text(alloc: Global, mapping: &Mapping) -> Result<String, AllocError> {
    let dynamic = if mapping.strict() { "strict" } else { "false" };
    let properties = properties_text(alloc, mapping.fields())?;
    let properties = properties.as_str();
    format!(in alloc; "{{\"dynamic\":\"{dynamic}\",\"properties\":{{{properties}}}}}")
}

/// The properties of mapped paths. Each path stands behind the object that it is in.
fn properties_text(alloc: Global, fields: &[Field]) -> Result<String, AllocError> {
    let mut text = String::new(alloc);
    let mut depth: usize = 0;
    let mut is_first = true;
    for field in fields {
        let level = level_of(&field.name);
        if level < depth {
            close(&mut text, depth - level)?;
            is_first = false;
        }
        if !is_first {
            text.push_str(",")?;
        }
        depth = level;
        is_first = push_field(alloc, &mut text, field)?;
        if is_first {
            depth = level.saturating_add(1);
        }
    }
    close(&mut text, depth)?;
    Ok(text)
}

/// Ends so many objects.
fn close(text: &mut String, levels: usize) -> Result<(), AllocError> {
    for _ in 0..levels {
        text.push_str("}}")?;
    }
    Ok(())
}

/// In how many objects a path stands.
fn level_of(path: &str) -> usize {
    let mut level: usize = 0;
    for byte in path.as_bytes() {
        if *byte == b'.' {
            level = level.saturating_add(1);
        }
    }
    level
}

/// Appends a field, and returns whether it is an object, whose fields come next.
fn push_field(alloc: Global, text: &mut String, field: &Field) -> Result<bool, AllocError> {
    let name = quoted(alloc, last_of(field.name.as_str()))?;
    text.push_str(name.as_str())?;
    match field.subject {
        Subject::Object => {
            text.push_str(":{\"properties\":{")?;
            Ok(true)
        }
        Subject::Values(kind) => {
            text.push_str(":{\"type\":\"")?;
            text.push_str(kind_name(kind))?;
            text.push_str("\"}")?;
            Ok(false)
        }
    }
}

/// The last name of a path.
fn last_of(path: &str) -> &str {
    match path.rfind('.') {
        Some(at) => path.get(at.saturating_add(1)..).unwrap_or(path),
        None => path,
    }
}

fn kind_name(kind: Kind) -> &'static str {
    match kind {
        Kind::Keyword => "keyword",
        Kind::Text => "text",
        Kind::Long => "long",
        Kind::Boolean => "boolean",
    }
}

fn stats_text(alloc: Global, name: &str, stats: &Stats) -> Result<String, AllocError> {
    let documents = stats.documents.unwrap_or(0);
    let copies = stats.copies;
    let active = active(stats);
    let totals = format!(in alloc;
        "{{\"primaries\":{{\"docs\":{{\"count\":{documents}}}}},\"total\":{{\"docs\":{{\"count\":{documents}}}}}}}"
    )?;
    let totals = totals.as_str();
    let shards = copies_text(alloc, &stats.served)?;
    let shards = shards.as_str();
    let health = health_of(stats);
    format!(in alloc;
        "{{\"_all\":{totals},\"_shards\":{{\"failed\":0,\"successful\":{active},\"total\":{copies}}},\"indices\":{{{name}:{{\"health\":\"{health}\",\"shards\":{{\"0\":[{shards}]}},\"uuid\":\"_na_\"}}}}}}"
    )
}

fn copies_text(alloc: Global, served: &[CopyStats]) -> Result<String, AllocError> {
    let mut text = String::new(alloc);
    for it in served {
        if !text.is_empty() {
            text.push_str(",")?;
        }
        let one = copy_text(alloc, *it)?;
        text.push_str(one.as_str())?;
    }
    Ok(text)
}

fn copy_text(alloc: Global, it: CopyStats) -> Result<String, AllocError> {
    let copy = it.copy;
    let primary = it.is_primary;
    let synced = it.is_in_sync;
    let state = if it.is_open { "STARTED" } else { "UNASSIGNED" };
    let term = it.term;
    let refreshed = it.refreshed;
    let segments = it.segments;
    let greatest = it.greatest;
    let local = it.local;
    let global = it.global;
    format!(in alloc;
        "{{\"in_sync\":{synced},\"primary_term\":{term},\"refresh\":{{\"records\":{refreshed}}},\"routing\":{{\"node\":\"{copy}\",\"primary\":{primary},\"state\":\"{state}\"}},\"segments\":{{\"count\":{segments}}},\"seq_no\":{{\"global_checkpoint\":{global},\"local_checkpoint\":{local},\"max_seq_no\":{greatest}}}}}"
    )
}

fn health_text(alloc: Global, stats: &Stats) -> Result<String, AllocError> {
    let health = health_of(stats);
    let active = active(stats);
    let leads = leads(stats);
    let missing = missing(stats);
    let percent = percent(stats);
    format!(in alloc;
        "{{\"active_primary_shards\":{leads},\"active_shards\":{active},\"active_shards_percent_as_number\":{percent}.0,\"cluster_name\":\"indexd\",\"delayed_unassigned_shards\":0,\"initializing_shards\":0,\"number_of_data_nodes\":1,\"number_of_in_flight_fetch\":0,\"number_of_nodes\":1,\"number_of_pending_tasks\":0,\"relocating_shards\":0,\"status\":\"{health}\",\"task_max_waiting_in_queue_millis\":0,\"timed_out\":false,\"unassigned_shards\":{missing}}}"
    )
}

/// The columns of `_cat/health`: the time (which no clock here says), the cluster, its status, nodes, copies, primaries, and what is missing.
fn health_line(alloc: Global, stats: &Stats) -> Result<String, AllocError> {
    let health = health_of(stats);
    let active = active(stats);
    let leads = leads(stats);
    let missing = missing(stats);
    let percent = percent(stats);
    format!(in alloc; "- - indexd {health} 1 1 {active} {leads} 0 0 {missing} 0 - {percent}.0%\n")
}

/// The columns of `_cat/indices`: the health, the status, the index, its shards and their replicas, and the documents. What isn't known is a dash.
fn index_line(alloc: Global, index: &str, stats: &Stats) -> Result<String, AllocError> {
    let health = health_of(stats);
    let replicas = stats.copies.saturating_sub(1);
    let documents = stats.documents.unwrap_or(0);
    format!(in alloc; "{health} open {index} _na_ 1 {replicas} {documents} - - -\n")
}

/// The same figures in the text format of Prometheus.
fn metrics_text(alloc: Global, name: &str, stats: &Stats) -> Result<String, AllocError> {
    let documents = stats.documents.unwrap_or(0);
    let copies = stats.copies;
    let active = active(stats);
    let mut text = format!(in alloc;
        "indexd_documents{{index={name}}} {documents}\nindexd_copies{{index={name}}} {copies}\nindexd_active_copies{{index={name}}} {active}\n"
    )?;
    for it in &stats.served {
        let one = copy_metrics(alloc, name, *it)?;
        text.push_str(one.as_str())?;
    }
    Ok(text)
}

fn copy_metrics(alloc: Global, name: &str, it: CopyStats) -> Result<String, AllocError> {
    let copy = it.copy;
    let labels = format!(in alloc; "{{index={name},copy=\"{copy}\"}}")?;
    let labels = labels.as_str();
    let primary = it.is_primary as u64;
    let synced = it.is_in_sync as u64;
    let open = it.is_open as u64;
    let term = it.term;
    let greatest = it.greatest;
    let local = it.local;
    let global = it.global;
    let refreshed = it.refreshed;
    let segments = it.segments;
    format!(in alloc;
        "indexd_copy_primary{labels} {primary}\nindexd_copy_in_sync{labels} {synced}\nindexd_copy_open{labels} {open}\nindexd_copy_primary_term{labels} {term}\nindexd_copy_max_seq_no{labels} {greatest}\nindexd_copy_local_checkpoint{labels} {local}\nindexd_copy_global_checkpoint{labels} {global}\nindexd_copy_refreshed_records{labels} {refreshed}\nindexd_copy_segments{labels} {segments}\n"
    )
}
