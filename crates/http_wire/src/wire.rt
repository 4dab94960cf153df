//! Heads and bodies, one after the other.

ghost use Rattle.std.specs.Prelude.{◌≡◌, [], None, Some, Err, IfOk, IfErr};
ghost use Rattle.http_wire.specs.Answers.{Answers, GivesBody};
ghost use Rattle.http_wire.specs.Laws.{GivesInOrder};
ghost use Rattle.http_wire.specs.Seen.{seen};
ghost use Rattle.http_wire.specs.Taking.{source_view};

use crate::fault::WireFault;
use crate::head::Head;
use crate::reading::{Reading, bring, read_head};
use crate::window::Window;
use httparse::spans::{EMPTY_HEADER_SPAN, HeaderSpan};
use io_base::Source;
use std::alloc::Global;

/// Reads heads and bodies from a source. It keeps what came behind a head for its body and for the next head.
#[derive(Drop)]
pub struct Wire<S> {
    source: S,
    window: Window,
    headers: [HeaderSpan; 64],
    stated: u64,
    body_left: u64,
    refused: Option<WireFault>,
}

impl<S: Source + Drop> Wire<S> {
    /// A wire over the source, which takes the memory for what waits, and no byte yet. Where there is none, the source
    /// comes back.
    pub fn new(alloc: Global, source: S) -> Result<Wire<S>, S>
        ensures made { IfOk result (λ w. (w.source ≡ source)
            × (seen w ≡ record { waits = []; stated = 0; body_left = 0; refused = None })) }
        ensures back { IfErr result (λ s. s ≡ source) }
    {
        match Window::new(alloc) {
            Ok(window) => Ok(Wire {
                source,
                window,
                headers: [EMPTY_HEADER_SPAN; 64],
                stated: 0,
                body_left: 0,
                refused: None,
            }),
            Err(_) => Err(source),
        }
    }

    /// The next head, or None where the source ended before any byte of one. What is behind the head waits. The last
    /// body was read to its end before. After a refusal the same one comes again, and nothing is taken.
    ///
    /// It begins a message of the source, so a wait between two requests ends at its own limit, however long the peer was
    /// waited for in the requests before.
    pub fn next_head(&mut self, alloc: Global) -> Result<Option<Head>, WireFault>
        requires { self.old.refused ≡ None → self.old.body_left ≡ 0 }
        ensures again { (fault : WireFault) → self.old.refused ≡ Some fault
            → (result ≡ Err fault) × (self.new ≡ self.old) }
        ensures answers { self.old.refused ≡ None → Answers result self.old.window (source_view S.Source self.old.source)
            (source_view S.Source self.new.source) (seen self.new) (S.faults self.old.source) (S.faults self.new.source) }
    {
        if let Some(fault) = self.refused {
            return Err(fault);
        }
        self.source.begin_message();
        match read_head(&mut self.window, &mut self.headers, &mut self.source, alloc) {
            Reading::Whole(head, length) => {
                self.stated = length;
                self.body_left = length;
                Ok(Some(head))
            }
            Reading::End => Ok(None),
            Reading::Refused(fault) => {
                self.refused = Some(fault);
                Err(fault)
            }
        }
    }

    /// Gives the next bytes of the body, as many as there is room for and as come at once: 0 only where the buffer is
    /// empty or the whole body was read. It takes nothing that is behind the body, and nothing while bytes wait. After a
    /// refusal the same one comes again, and nothing is taken.
    pub fn body(&mut self, into: &mut [u8]) -> Result<usize, WireFault>
        ensures again { (fault : WireFault) → self.old.refused ≡ Some fault
            → (result ≡ Err fault) × (self.new ≡ self.old) × (into.new ≡ into.old) }
        ensures answers { self.old.refused ≡ None → GivesBody result into.new (seen self.old) (seen self.new)
            (source_view S.Source self.old.source) (source_view S.Source self.new.source) (S.faults self.old.source) (S.faults self.new.source) }
    {
        if let Some(fault) = self.refused {
            return Err(fault);
        }
        let most = self.body_left.min(into.len() as u64) as usize;
        if most == 0 {
            return Ok(0);
        }
        match bring(&mut self.window, &mut self.source, &mut into[..most]) {
            Ok(0) => {
                let cut = WireFault::BodyCut {
                    read: self.stated.saturating_sub(self.body_left),
                    stated: self.stated,
                };
                self.refused = Some(cut);
                Err(cut)
            }
            Ok(n) => {
                self.body_left -= n as u64;
                Ok(n)
            }
            Err(_) => {
                self.refused = Some(WireFault::ReadFault);
                Err(WireFault::ReadFault)
            }
        }
    }

    /// Lifts a refusal, so that the next call asks the source again. What waits stays, and what is left of the body.
    pub fn retry(&mut self)
        ensures lifted { seen self.new ≡ record (seen self.old) { refused = None } }
        ensures same { self.new.source ≡ self.old.source }
    {
        self.refused = None;
    }

    /// The source, behind all that was taken from it; what waits is lost.
    pub fn into_source(self) -> S
        ensures { result ≡ self.source }
    {
        self.source
    }

    /// How many bytes of the last head's body were not read yet.
    pub fn body_left(&self) -> u64
        ensures { result ≡ self.now.body_left }
    {
        self.body_left
    }
}

/// The law that a wire gives what was unread, in order, for a caller's proof. It does nothing.
pub fn wire_laws()
    ensures { GivesInOrder }
{}
