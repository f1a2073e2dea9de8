// Fields of residues modulo an irreducible polynomial: values and roots of polynomials, Fermat's theorem, conjugates. Theory only.
#![tactic(auto)]
