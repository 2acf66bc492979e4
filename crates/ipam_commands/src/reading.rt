//! A document is read.
ghost use Rattle.std.specs.Prelude.{◌≡◌, ◌≢◌, ◌+◌, ◌<◌, ◌≤◌, ◌^◌, length, IfOk, IfErr, OnErr, Ok, Err, string_bytes};
ghost use Rattle.std.specs.List.{All};
ghost use Rattle.std.specs.Io.KnownBytes.{IsAtEnd, prepend_known};
ghost use Rattle.ipam_io.specs.Counts.{Rose};
ghost use Rattle.ipam_io.specs.Inputs.{OnNoReadFault, OnReadFault};
ghost use Rattle.ipam_model.specs.SoundRequest.{IsSoundChange};
ghost use Rattle.ipam_resources.specs.Documents.{IsReadable, document_reading};
ghost use Rattle.ipam_resources.specs.Printed.{fault_line};

use ipam_io::{InputFault, Source, read_whole};
use ipam_resources::{DocumentFault, Resource, push_document_fault, read_resources};
use ipam_text::Seq;
use std::alloc::{AllocError, Global};

/// What takes the memory for reading a document, and for the line on a bad one. What is generic over it knows
/// nothing of it, and so can't state by itself that it found none.
pub(crate) trait ReadsDocuments {
    /// It found no memory.
    ghost wants: { Self → Type 0 };

    /// The bytes of the source to its end, or one more than the most that are wanted.
    fn read_whole<S: Source>(&self, source: &mut S, most: usize) -> Result<Vec<u8>, InputFault>
        requires { most < 2 ^ 32 }
        ensures bytes { IfOk result (λ input. S.left source.old ≡ prepend_known input.items (S.left source.new)) }
        ensures whole { IfOk result (λ input. length input.items ≤ most → IsAtEnd (S.left source.new)) }
        ensures bound { IfOk result (λ input. length input.items ≤ most + 1) }
        ensures fault { OnReadFault result (Rose (S.read_faults source.old) (S.read_faults source.new)) }
        ensures no_fault { OnNoReadFault result (S.read_faults source.new ≡ S.read_faults source.old) }
        ensures rest { S.read_rest source.new ≡ S.read_rest source.old }
        ensures wants { result ≡ Err InputFault.Memory → wants self.now };

    /// The resources of a document, in order.
    fn read_resources(&self, document: &[u8]) -> Result<Seq<Resource>, DocumentFault>
        ensures read { IfOk result (λ resources. document_reading document.now ≡ Ok resources) }
        ensures refused { IfErr result (λ fault. fault ≢ DocumentFault.Memory → document_reading document.now ≡ Err fault) }
        ensures memory { IfErr result (λ fault. fault ≡ DocumentFault.Memory → IsReadable document.now) }
        ensures sound { IfOk result (λ resources. All (λ r. IsSoundChange r.change) resources) }
        ensures wants { result ≡ Err DocumentFault.Memory → wants self.now };

    /// The line on a bad document.
    fn fault_line(&self, fault: DocumentFault) -> Result<String, AllocError>
        ensures line { IfOk result (λ line. string_bytes line ≡ fault_line fault) }
        ensures wants { OnErr result (wants self.now) };
}

impl ReadsDocuments for Global {
    ghost wants = { λ _. Unit {0} };

    fn read_whole<S: Source>(&self, source: &mut S, most: usize) -> Result<Vec<u8>, InputFault> {
        read_whole(*self, source, most)
    }

    fn read_resources(&self, document: &[u8]) -> Result<Seq<Resource>, DocumentFault> {
        read_resources(*self, document)
    }

    fn fault_line(&self, fault: DocumentFault) -> Result<String, AllocError> {
        fault_line(*self, fault)
    }
}

fn fault_line(alloc: Global, fault: DocumentFault) -> Result<String, AllocError>
    ensures { IfOk result (λ line. string_bytes line ≡ fault_line fault) }
{
    let mut line = String::new(alloc);
    push_document_fault(alloc, &mut line, fault)?;
    Ok(line)
}
