//! Rows of the tables of a network, written as TOML.
use std::alloc::{AllocError, Global};
use std::test::Fail;

/// What the tables of each network begin with.
pub const SETTINGS: &str =
    "[network]\ncurrency = \"840\"\ndate = \"0314\"\nhost_ticks = 100\nadvice_ticks = 50\n";

/// The words of a line, divided by blanks.
pub fn words(alloc: Global, line: &'static str) -> Result<Vec<&'static str>, AllocError> {
    let mut words = Vec::new(alloc);
    for word in line.split_whitespace() {
        words.push(word)?;
    }
    Ok(words)
}

fn push_all(text: &mut String, pieces: &[&str]) -> Result<(), AllocError> {
    for piece in pieces {
        text.push_str(piece)?;
    }
    Ok(())
}

fn push_text(toml: &mut String, key: &str, value: &str) -> Result<(), AllocError> {
    push_all(toml, &[key, " = \"", value, "\"\n"])
}

fn push_number(toml: &mut String, key: &str, value: &str) -> Result<(), AllocError> {
    push_all(toml, &[key, " = ", value, "\n"])
}

fn push_texts(toml: &mut String, key: &str, values: &[&'static str]) -> Result<(), AllocError> {
    push_all(toml, &[key, " = ["])?;
    for (place, value) in values.iter().enumerate() {
        if place > 0 {
            toml.push_str(", ")?;
        }
        push_all(toml, &["\"", value, "\""])?;
    }
    push_all(toml, &["]\n"])
}

fn push_node(toml: &mut String, words: &[&'static str]) -> Result<(), Fail> {
    let [name, id] = words else {
        return Err("node".into());
    };
    push_text(toml, "name", name)?;
    Ok(push_text(toml, "id", id)?)
}

fn push_link(toml: &mut String, words: &[&'static str]) -> Result<(), Fail> {
    let [name, end, other_end, ticks] = words else {
        return Err("link".into());
    };
    push_text(toml, "name", name)?;
    push_texts(toml, "ends", &[end, other_end])?;
    Ok(push_number(toml, "ticks", ticks)?)
}

fn push_acquirer(toml: &mut String, words: &[&'static str]) -> Result<(), Fail> {
    let [id, node] = words else {
        return Err("acquirer".into());
    };
    push_text(toml, "id", id)?;
    Ok(push_text(toml, "node", node)?)
}

fn push_issuer(toml: &mut String, words: &[&'static str]) -> Result<(), Fail> {
    let [name, prefix, home, ceiling, named @ ..] = words else {
        return Err("issuer".into());
    };
    push_text(toml, "name", name)?;
    push_text(toml, "prefix", prefix)?;
    push_text(toml, "home", home)?;
    push_texts(toml, "named", named)?;
    Ok(push_number(toml, "ceiling", ceiling)?)
}

fn push_route(toml: &mut String, words: &[&'static str]) -> Result<(), Fail> {
    let [node, prefix, links @ ..] = words else {
        return Err("route".into());
    };
    push_text(toml, "node", node)?;
    push_text(toml, "prefix", prefix)?;
    Ok(push_texts(toml, "links", links)?)
}

fn push_stand_in(toml: &mut String, words: &[&'static str]) -> Result<(), Fail> {
    let [node, prefix, day, single] = words else {
        return Err("stand_in".into());
    };
    push_text(toml, "node", node)?;
    push_text(toml, "prefix", prefix)?;
    push_number(toml, "day", day)?;
    Ok(push_number(toml, "single", single)?)
}

fn push_words(toml: &mut String, kind: &str, words: &[&'static str]) -> Result<(), Fail> {
    match kind {
        "node" => push_node(toml, words),
        "link" => push_link(toml, words),
        "acquirer" => push_acquirer(toml, words),
        "issuer" => push_issuer(toml, words),
        "route" => push_route(toml, words),
        "stand_in" => push_stand_in(toml, words),
        _ => Err("kind".into()),
    }
}

fn push_row(toml: &mut String, kind: &str, words: &[&'static str]) -> Result<(), Fail> {
    push_all(toml, &["[[", kind, "]]\n"])?;
    push_words(toml, kind, words)
}

/// Adds rows of one kind to tables, their words in the order of the kind: `NAME ID` of a node, `NAME END END TICKS` of a link,
/// `ID NODE` of an acquirer, `NAME PREFIX HOME CEILING NAMED..` of an issuer, `NODE PREFIX LINKS..` of a route, `NODE PREFIX DAY
/// SINGLE` of a stand-in row.
pub fn push_rows(
    alloc: Global,
    toml: &mut String,
    kind: &str,
    rows: &[&'static str],
) -> Result<(), Fail> {
    for row in rows {
        let words = words(alloc, row)?;
        push_row(toml, kind, words.as_slice())?;
    }
    Ok(())
}

fn push_line(toml: &mut String, words: &[&'static str]) -> Result<(), Fail> {
    match words {
        [] => Ok(()),
        [kind, row @ ..] => push_row(toml, kind, row),
    }
}

/// Adds rows of any kind to tables, one a line, each with its kind before it.
pub fn push_lines(alloc: Global, toml: &mut String, lines: &'static str) -> Result<(), Fail> {
    for line in lines.lines() {
        let words = words(alloc, line)?;
        push_line(toml, words.as_slice())?;
    }
    Ok(())
}

/// The text of ranks.
pub fn ranks_of(alloc: Global, rows: &[&'static str]) -> Result<String, AllocError> {
    let mut text = String::from_str(alloc, "RANKS 1\n")?;
    for row in rows {
        push_all(&mut text, &[row, "\n"])?;
    }
    text.push_str("END\n")?;
    Ok(text)
}
