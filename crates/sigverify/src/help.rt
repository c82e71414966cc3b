//! What the program says of itself.
ghost use Rattle.std.specs.Prelude.{◌≡◌, Some, None, option_map};
ghost use Rattle.sigverify.specs.Words.{AsksHelp, AsksVersion};

use sig_base::Text;

const HELP: &str = "\
sigverify - decides without a network whether a signed artifact may be trusted

usage: sigverify log < REQUEST
       sigverify verify < REQUEST
       sigverify consistency < REQUEST
       sigverify audit < REQUEST
       sigverify witness < REQUEST
       sigverify gate < REQUEST
       sigverify questions log < REQUEST
       sigverify questions verify < REQUEST
       sigverify questions consistency < REQUEST
       sigverify questions audit < REQUEST
       sigverify questions witness < REQUEST
       sigverify questions gate < REQUEST
       sigverify explain log < REQUEST
       sigverify explain verify < REQUEST
       sigverify explain consistency < REQUEST
       sigverify explain audit < REQUEST
       sigverify explain witness < REQUEST
       sigverify explain gate < REQUEST
       sigverify demo N
       sigverify --help | --version

commands:
  log    Is an entry in a transparency log? The request on standard input is a
         JSON object with the members
           entry       base64, the entry
           logIndex    its index in the tree, from 0
           treeSize    how many entries the log has
           rootHash    64 hex digits, the log's root hash
           hashes      list of 64 hex digits, the audit path from the leaf up
           checkpoint  text, a signed note with that size and root
           scheme      ECDSA_P256_SHA256_ASN1, ECDSA_P384_SHA384_ASN1,
                       ECDSA_P521_SHA512_ASN1, ED25519, RSA_PSS_SHA256
                       or RSA_PKCS1_SHA256
           key         base64, the log's key (DER)
           accepted    list of the signatures that are taken for genuine, each
                       with operation, scheme, key, message and signature
           entries     optional list of base64, all entries of the log
         The reply is one line on standard output:
           logged INDEX SIZE   every link of the chain holds
           refused LINK        the first that fails: request, checkpoint,
                               note-key, note-match or inclusion
         With entries, a second line follows where every link holds:
           entry INDEX         the logged entry is the list's at this index
           other list          the list has another size or root than the log
           collision HEX HEX   neither: two different byte strings of equal
                               SHA-256
  verify May an artifact be trusted, by its Sigstore bundle? The request on
         standard input is a JSON object with the members
           trustedRoot  text, the trusted root
           bundle       text, the bundle
           now          the time, in seconds since 1970
           digest       sha256: and 64 hex digits, or sha512: and 128, of the
                        artifact
           policy       {\"all\": [RULE, ..]} or {\"any\": [RULE, ..]}; a rule has
                        identity and issuer, or one of issuer, trigger, sha,
                        name, repository and ref
           accepted     as of log
           entries      as of log, of the log that the bundle's entry is in
         The reply is one line on standard output:
           verified INDEX SIZE   every link of the chain of trust holds
           refused LINK          the first that fails
         and with entries a second line, as of log.
  consistency Has the log kept what it had? The request on standard input is a
         JSON object with the members
           oldSize     how many entries the log had
           oldRoot     64 hex digits, the root hash that it had then
           treeSize, rootHash, checkpoint, scheme, key, accepted   as of log
           hashes      list of 64 hex digits, the consistency proof
           entries     as of log, of the log of now
         The reply is one line on standard output:
           consistent OLD NEW  the log of now begins with all entries of then
           refused LINK        the first that fails: request, checkpoint,
                               note-key, note-match or consistency
         With entries, a second line follows where every link holds:
           prefix OLD          the old root is that of the first entries, as many
                               as the log had
           other list          the list has another size or root than the log
           collision HEX HEX   neither: two different byte strings of equal
                               SHA-256
  audit  Are these heads of one log over time, and has it these entries? The
         request on standard input is a JSON object with the members
           heads       list of 1 to 256 objects, the oldest first, with
             checkpoint  text, a signed note
             hashes      list of 64 hex digits, the consistency proof from the
                         head before; of the first not looked at
           watched     list of at most 4096 objects with
             head        the index of a head, from 0
             index       the entry's index in that head's tree, from 0
             hashes      list of 64 hex digits, the audit path
             entry       base64, the entry
           scheme, key, accepted   as of log
           entries     as of log, of the last head
         The reply is one line on standard output:
           audited HEADS WATCHED SIZE   every link holds; the last size
           refused LINK INDEX           the first that fails, and the index of
                                        its head (checkpoint, note-key, origin,
                                        consistency) or watched entry (inclusion)
           refused request
         With entries, a second line follows where every link holds:
           prefixes HEADS      each head has the root of the first entries, as
                               many as its size, and each watched entry is the
                               list's at its index
           other list          the list has another size or root than the last
                               head
           collision HEX HEX   neither: two different byte strings of equal
                               SHA-256

  witness Which heads have grown from those that are kept? The request on
         standard input is a JSON object with the members
           state       text, what the last run wrote after the empty line; empty
                       or absent before the first
           origins     optional list of the logs that are added to it, objects
                       with
             origin      text, the first line of the log's notes
             scheme, key   as of log
           updates     optional list of at most 4096 objects with
             checkpoint  text, a signed note
             oldSize     the size of the head that is kept, 0 for an origin that
                         was just added
             hashes      list of 64 hex digits, the consistency proof from it
           accepted    as of log
         The reply on standard output is a line for each update,
           accepted SIZE            the new head is kept
           refused checkpoint       the text is not a signed note
           refused origin           its origin is not kept
           refused note-key         no signature is accepted under its key
           refused old-size KEPT    the head that is kept has this size
           refused consistency      the hashes do not lead to the new head
           refused full             4096 heads were kept in this run
         an empty line, and the state; or
           refused request
         A refused update changes nothing. Nothing is signed.

  gate   Which of these artifacts are to be admitted? The manifest on standard
         input is a JSON object with the members
           now         the time, in seconds since 1970
           roots       object from names to texts of trusted roots
           policies    object from names to policies, as of verify
           artifacts   list of 1 to 256 objects with
             name        1 to 256 characters from ! to ~
             digest      as of verify
             root        the name of a trusted root
             policy      the name of a policy
             bundles     optional list of texts; 256 of all artifacts together
             rule        what the verified bundles have to show, an object with
                         one of
               least       1 to 16: so many different logged signatures
               origin      text: one log's checkpoint has this first line
               size        one log's tree has so many entries
               all, any    list of rules: each of them, or one of them
               not         rule: not what it asks for
           accepted    as of log
         The reply on standard output has for each artifact the line
           artifact NAME admit       a bundle is verified, and the rule holds
           artifact NAME deny none   no bundle is verified
           artifact NAME deny rule   the rule does not hold
         then for each of its bundles, by its index,
           bundle INDEX verified ENTRY SIZE   every link of verify holds
           bundle INDEX refused LINK          the first that fails
         and at the end
           admitted COUNT of TOTAL
         or it is
           refused request

  questions log, questions verify, questions consistency, questions audit
         Which signatures can the reply of the command rest on? The
         request is the command's own, and its accepted, if given, has to be a
         list of signatures, and does not matter. The reply is a JSON list in
         the form of accepted, of every signature that has to be checked; or
           refused LINK        the first that fails whatever is accepted; request
                               also for a list that has, with the request and
                               12 bytes more, more than 2^24 bytes
         Those that are genuine are what accepted needs: no other signature
         matters.
  questions witness
         The same of witness: of each update each signature under the key of its
         origin, each once. The refusal is that of the request alone.
  questions gate
         The same of gate: of each bundle what questions verify lists of it, each
         once. The refusal is that of the manifest alone; also where the list,
         with each signature as often as a bundle asks for it, would have more
         than 2^26 bytes.

  explain log, explain verify, explain consistency
         Why is this the reply of the command? The request is the command's own.
         The reply is that of the command, and after it one line, a JSON object.
         Where a link fails, it has
           link        its name, as the reply has it
           cause       list of words: the reason, the most general word first
           path, why   of the link request: which member is wrong, and how
         and what the link compares; where every link holds, what was verified.
         Numbers are texts of decimal digits. The status is the command's.
  explain audit, explain witness, explain gate
         The same of these: of audit with the index of the head or of the
         watched entry; of witness a list with an object for each update; of
         gate a list of the artifacts, each with an object for each bundle.

  demo N Does it work? N is how many entries a log has that the program makes up,
         from 1 to 4096 in decimal digits. Nothing is read. The reply is three
         lines on standard output:
           entries N
           root HEX            the root hash of their tree
           logged INDEX N      the reply of log to a request for the entry in
                               the middle

docs/LINKS.md says of each link what was tested, what to look at first, and
what explain shows of it.

status:
  0   every link holds; of questions, the list is written
  1   a link other than request fails; of witness, an update is refused; of
      gate, an artifact is not admitted
  2   the link request fails; of questions also, the list would be too long
  64  the words are not a command, or not a number that demo takes
  71  out of memory
  74  reading or writing failed
";

const VERSION: &str = "sigverify 0.1.0\n";

/// Returns the text for the one word `--help`, and for the one word `--version`; `None` for all other words, which are
/// [`run`]'s.
///
/// [`run`]: sig_program::run::run
pub fn answer_of(words: &[Text]) -> Option<&'static str>
    ensures help { AsksHelp words.now → option_map (λ text. text.now) result ≡ Some HELP.now }
    ensures version { AsksVersion words.now → option_map (λ text. text.now) result ≡ Some VERSION.now }
    ensures other { ¬ AsksHelp words.now → ¬ AsksVersion words.now → result ≡ None }
{
    match words {
        [word] => match word.as_str() {
            "--help" => Some(HELP),
            "--version" => Some(VERSION),
            _ => None,
        },
        _ => None,
    }
}
