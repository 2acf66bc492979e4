//! Hints on standard error after a document was applied, a block released or a node shown. Where one can't be made or
//! written, nothing else changes.
ghost use Rattle.std.specs.Prelude.{◌≡◌};

use ipam_addr::Cidr;
use ipam_command::run_command;
use ipam_hints::{
    HINTED_MAX, SHOWN_MAX, document_hints, names_pools, pool_hints, released_hint, shows_nothing,
    unnamed_hint,
};
use ipam_io::{Failed, Link, MemorySink, MemorySource, Sink, Source};
use ipam_keeper::Keeper;
use ipam_operator::get;
use ipam_text::Text;
use ipam_words::{Command, RowKind, View, read_words};
use std::alloc::{AllocError, Global};
use std::str;

/// The status of a command that did what it was asked.
const DONE: u8 = 0;

/// The status of a command that was refused.
const REFUSED: u8 = 1;

/// The most bytes of what is looked up for a hint: the row of the pools, the table of the blocks, or the affinities.
const LOOK_MAX: usize = 4 * 1024 * 1024;

/// A source that keeps what was read of a document. It reads what the source below it does.
#[derive(Drop)]
pub(crate) struct KeptSource<S> {
    source: S,
    /// None where nothing is kept: of another command's input, of a document that is too long for hints, and where
    /// there was no memory.
    read: Option<Vec<u8>>,
}

impl<S: Source> KeptSource<S> {
    /// Keeps what is read, where the words are those of `apply`.
    pub(crate) fn new(alloc: Global, source: S, words: &[String]) -> KeptSource<S>
        ensures { result.source ≡ source }
    {
        let read = match read_words(words) {
            Some(Command::Apply) => Some(Vec::new(alloc)),
            _ => None,
        };
        KeptSource { source, read }
    }

    /// Keeps what is read.
    pub(crate) fn of_document(alloc: Global, source: S) -> KeptSource<S>
        ensures { result.source ≡ source }
    {
        KeptSource {
            source,
            read: Some(Vec::new(alloc)),
        }
    }

    /// What was read of a document.
    pub(crate) fn document(&self) -> Option<&[u8]> {
        match &self.read {
            Some(read) => Some(read.as_slice()),
            None => None,
        }
    }

    fn keep(&mut self, piece: &[u8])
        ensures { self.new.source ≡ self.old.source }
    {
        let is_kept = match &mut self.read {
            Some(read) => {
                read.len().saturating_add(piece.len()) <= HINTED_MAX
                    && read.extend_from_slice(piece).is_ok()
            }
            None => true,
        };
        if !is_kept {
            self.read = None;
        }
    }
}

impl<S: Source> Source for KeptSource<S> {
    ghost left = { λ kept. S.left kept.source };

    ghost read_faults = { λ kept. S.read_faults kept.source };

    ghost read_rest = { λ kept. S.read_rest kept.source };

    fn read(&mut self, into: &mut [u8]) -> Result<usize, Failed> {
        match self.source.read(into) {
            Ok(count) => {
                self.keep(&into[..count]);
                Ok(count)
            }
            Err(Failed) => Err(Failed),
        }
    }
}

/// A sink that keeps what was written to it, while that is short. It writes to the sink below it.
#[derive(Drop)]
pub(crate) struct KeptSink<K> {
    sink: K,
    /// None where more was written, and where there was no memory.
    written: Option<Vec<u8>>,
}

impl<K: Sink> KeptSink<K> {
    pub(crate) fn new(alloc: Global, sink: K) -> KeptSink<K>
        ensures { result.sink ≡ sink }
    {
        KeptSink {
            sink,
            written: Some(Vec::new(alloc)),
        }
    }

    /// What was written, where it is short.
    pub(crate) fn shown(&self) -> Option<&[u8]> {
        match &self.written {
            Some(written) => Some(written.as_slice()),
            None => None,
        }
    }

    fn keep(&mut self, piece: &[u8])
        ensures { self.new.sink ≡ self.old.sink }
    {
        let is_kept = match &mut self.written {
            Some(written) => {
                written.len().saturating_add(piece.len()) <= SHOWN_MAX
                    && written.extend_from_slice(piece).is_ok()
            }
            None => true,
        };
        if !is_kept {
            self.written = None;
        }
    }
}

impl<K: Sink> Sink for KeptSink<K> {
    ghost written = { λ kept. K.written kept.sink };

    ghost write_faults = { λ kept. K.write_faults kept.sink };

    ghost write_rest = { λ kept. K.write_rest kept.sink };

    fn write(&mut self, piece: &[u8]) -> Result<(), Failed> {
        self.keep(piece);
        self.sink.write(piece)
    }
}

/// Tells what the document has that was refused or not read.
pub(crate) fn hint_document(rt: &HostRuntime, document: Option<&[u8]>, status: u8) {
    match document {
        Some(document) if status == DONE || status == REFUSED => {
            tell_lines(rt, document_hints(rt.alloc(), document));
        }
        _ => {}
    }
}

/// Tells what a person should know of what the words did over the keeper.
pub(crate) fn hint_kept<D: Keeper>(
    rt: &HostRuntime,
    words: &[String],
    variables: &[(Text, Text)],
    document: Option<&[u8]>,
    shown: Option<&[u8]>,
    status: u8,
    keeper: &mut D,
) {
    hint_document(rt, document, status);
    if status == REFUSED {
        if let Some(document) = document {
            hint_pools(rt, variables, document, keeper);
        }
        return;
    }
    match read_words(words) {
        Some(command) if status == DONE => hint_done(rt, variables, &command, shown, keeper),
        _ => {}
    }
}

/// Tells what a person should know of the command that was done.
fn hint_done<D: Keeper>(
    rt: &HostRuntime,
    variables: &[(Text, Text)],
    command: &Command<'_>,
    shown: Option<&[u8]>,
    keeper: &mut D,
) {
    match command {
        Command::Release(_, block) => hint_released(rt, variables, *block, keeper),
        Command::Show(View::Node(node, _)) if is_nothing(shown) => {
            if let Ok(sink) = looked(rt, "get", "affinity", variables, keeper) {
                tell_unnamed(rt, node, sink.written());
            }
        }
        _ => {}
    }
}

/// Tells that no row names the node of which a daemon showed this, if none does.
pub(crate) fn hint_asked<L: Link>(
    rt: &HostRuntime,
    view: &View<'_>,
    shown: Option<&[u8]>,
    link: &mut L,
) {
    match view {
        View::Node(node, _) if is_nothing(shown) => {
            if let Ok(mut sink) = MemorySink::new(rt.alloc(), LOOK_MAX, Vec::new(rt.alloc())) {
                let _ = get(rt.alloc(), &mut sink, link, Some(RowKind::Affinity));
                tell_unnamed(rt, node, sink.written());
            }
        }
        _ => {}
    }
}

/// Whether this was shown of a node that has no block and no address.
fn is_nothing(shown: Option<&[u8]>) -> bool {
    match shown {
        Some(shown) => match str::from_utf8(shown) {
            Ok(text) => shows_nothing(text),
            Err(_) => false,
        },
        None => false,
    }
}

/// Tells that no row names the node, if none of these affinities does.
fn tell_unnamed(rt: &HostRuntime, node: &str, affinities: &[u8]) {
    let Ok(affinities) = str::from_utf8(affinities) else {
        return;
    };
    if let Ok(Some(line)) = unnamed_hint(rt.alloc(), node, affinities) {
        let line = line.as_str();
        let _ = eprintln!(rt; "ipam: {line}");
    }
}

/// Tells how the document's pools differ from those that are there.
fn hint_pools<D: Keeper>(
    rt: &HostRuntime,
    variables: &[(Text, Text)],
    document: &[u8],
    keeper: &mut D,
) {
    if !names_pools(rt.alloc(), document) {
        return;
    }
    let Ok(sink) = looked(rt, "get", "pools", variables, keeper) else {
        return;
    };
    if let Ok(row) = str::from_utf8(sink.written()) {
        tell_lines(rt, pool_hints(rt.alloc(), document, row));
    }
}

/// Tells how many addresses of the block are in use.
fn hint_released<D: Keeper>(
    rt: &HostRuntime,
    variables: &[(Text, Text)],
    block: Cidr,
    keeper: &mut D,
) {
    let Ok(sink) = looked(rt, "show", "blocks", variables, keeper) else {
        return;
    };
    let Ok(table) = str::from_utf8(sink.written()) else {
        return;
    };
    if let Ok(Some(line)) = released_hint(rt.alloc(), table, block) {
        let line = line.as_str();
        let _ = eprintln!(rt; "ipam: {line}");
    }
}

/// What the command of these two words writes over the keeper.
fn looked<D: Keeper>(
    rt: &HostRuntime,
    first: &str,
    second: &str,
    variables: &[(Text, Text)],
    keeper: &mut D,
) -> Result<MemorySink, AllocError> {
    let alloc = rt.alloc();
    let mut words = Vec::new(alloc);
    words.push(String::from_str(alloc, first)?)?;
    words.push(String::from_str(alloc, second)?)?;
    let mut source = MemorySource::new(Vec::new(alloc), Vec::new(alloc));
    let mut sink = MemorySink::new(alloc, LOOK_MAX, Vec::new(alloc))?;
    let _ = run_command(
        alloc,
        words.as_slice(),
        variables,
        &mut source,
        &mut sink,
        keeper,
    );
    Ok(sink)
}

fn tell_lines(rt: &HostRuntime, lines: Result<Vec<String>, AllocError>) {
    let Ok(lines) = lines else {
        return;
    };
    for line in &lines {
        let line = line.as_str();
        let _ = eprintln!(rt; "ipam: {line}");
    }
}
