//! What follows from the definition of a path. No function here does anything: each states laws, and its proof is that
//! they hold.

ghost use Rattle.std.specs.Prelude.{◌≡◌, ◌↔◌, ℕ, suc, ◌+◌, ◌<◌, ◌≤◌, ℤ, List, [], ◌∷◌, ◌++◌, length, slice_get};
ghost use Rattle.std.specs.Prelude.{Contains, Some};
ghost use Rattle.sig_certificate.specs.Certificate.{Cert};
ghost use Rattle.sig_x509.specs.Issuance.{Accepts};
ghost use Rattle.sig_x509.specs.Issued.{IsIssuedBy, IsIssuedByNone, IsSignedBy};
ghost use Rattle.sig_x509.specs.Path.{HasNoPath, HasPath, IsFirstInPath, IsIssuerIn, IsPath};
ghost use Rattle.sig_x509.specs.PathPlaces.{HasRoomFor, IsFirstIssuedAt, IsIssuedAt, IsLast, trusting};
ghost use Rattle.sig_x509.specs.Pool.{Pool, certificate_of};
ghost use Rattle.sig_x509.specs.Possible.{SignaturesAreOfPaths};
ghost use Rattle.sig_x509.specs.declared.issuer.Issuer.{Issuer};

/// A path over no intermediates is issuance by a trust anchor. A path over some is a path to the last of them, as if it
/// were trusted, which the trust anchor signed, and which may issue others, with room for as many as come before it. So
/// no path goes over more than six, and the certificate with `others` before it has no path length, or one of at least
/// `others`. The issuer in a path issued the leaf.
pub fn path_laws()
    ensures direct { (accepts : Accepts) (pool : Pool) (c : Cert) (t : ℤ) (anchor : Cert)
        → IsPath accepts pool c t [] anchor ↔ (IsIssuedBy accepts c t anchor × Contains pool.anchors anchor) }
    ensures longer { (accepts : Accepts) (pool : Pool) (c : Cert) (t : ℤ) (below : List Cert) (x anchor : Cert)
        → IsPath accepts pool c t (below ++ x ∷ []) anchor
        ↔ (IsPath accepts (trusting pool x) c t below x × IsLast accepts pool t (length below) x anchor) }
    ensures few { (accepts : Accepts) (pool : Pool) (c : Cert) (t : ℤ) (over : List Cert) (anchor : Cert)
        → IsPath accepts pool c t over anchor → length over ≤ 6 }
    ensures path_length { (accepts : Accepts) (pool : Pool) (c : Cert) (t : ℤ) (over : List Cert) (anchor : Cert)
        → IsPath accepts pool c t over anchor
        → (others : ℕ) (x : Cert) → slice_get over others ≡ Some x → HasRoomFor x others }
    ensures issuer { (accepts : Accepts) (pool : Pool) (c : Cert) (t : ℤ) (issuer : Issuer)
        → HasPath accepts pool c t issuer
        → (x : Cert) × (certificate_of pool issuer ≡ Some x) × IsIssuedBy accepts c t x }
{}

/// A certificate may come twice in a path, as one that signed itself does. What comes between adds nothing: without it
/// the rest is a path from the same leaf to the same trust anchor, with the same issuer.
pub fn cycle_laws()
    ensures twice { (accepts : Accepts) (pool : Pool) (c : Cert) (t : ℤ) (before : List Cert) (x : Cert)
        (above : List Cert) (anchor : Cert) → IsPath accepts pool c t (before ++ x ∷ above) anchor
        → IsSignedBy accepts x x → length (before ++ x ∷ above) < 6
        → ((k : ℕ) (y : Cert) → slice_get (x ∷ above) k ≡ Some y → HasRoomFor y (length before + suc k))
        → IsPath accepts pool c t (before ++ x ∷ x ∷ above) anchor }
    ensures path { (accepts : Accepts) (pool : Pool) (c : Cert) (t : ℤ) (before : List Cert) (x : Cert)
        (between above : List Cert) (anchor : Cert)
        → IsPath accepts pool c t (before ++ x ∷ (between ++ x ∷ above)) anchor
        → IsPath accepts pool c t (before ++ x ∷ above) anchor }
    ensures issuer { (before : List Cert) (x : Cert) (between above : List Cert) (anchor : Cert) (issuer : Issuer)
        (y : Cert) → IsIssuerIn issuer y (before ++ x ∷ (between ++ x ∷ above)) anchor
        → IsIssuerIn issuer y (before ++ x ∷ above) anchor }
{}

/// In a pool without intermediates the issuer in a path is a trust anchor that issued the leaf, and the first one is
/// the first that did; there is no path if and only if none did.
pub fn anchor_laws()
    ensures path { (accepts : Accepts) (pool : Pool) (c : Cert) (t : ℤ) (issuer : Issuer) → pool.intermediates ≡ []
        → HasPath accepts pool c t issuer ↔ IsIssuedAt accepts pool.anchors c t issuer }
    ensures first { (accepts : Accepts) (pool : Pool) (c : Cert) (t : ℤ) (issuer : Issuer) → pool.intermediates ≡ []
        → IsFirstInPath accepts pool c t issuer ↔ IsFirstIssuedAt accepts pool.anchors c t issuer }
    ensures none { (accepts : Accepts) (pool : Pool) (c : Cert) (t : ℤ) → pool.intermediates ≡ []
        → HasNoPath accepts pool c t ↔ IsIssuedByNone accepts c t pool.anchors }
{}

/// `possible_paths` lists those of which `may_sign` holds, and it holds if and only if a path, which would lead from
/// the leaf to a trust anchor if every signature were genuine, has the signature of the one under the key of the other.
pub fn signatures_of_paths()
    ensures { SignaturesAreOfPaths }
{}
